//! How it is told what a configuration says of HTTP.

ghost use Rattle.std.specs.Prelude.{◌≡◌};
ghost use Rattle.configuration.specs.Checking.{collections_word, field_part, is_silent};
ghost use Rattle.configuration.specs.Configs.{web_data};

use crate::web::Web;
use features::Name;
use std::alloc::Allocator;
use std::fmt;

/// Whether nothing is said of HTTP.
fn is_silent<A: Allocator>(web: &Web<A>) -> bool
    ensures { result ≡ is_silent (web_data web.now) }
{
    web.anonymous.is_none()
        && web.metrics.is_none()
        && web.public.is_none()
        && web.collections.is_empty()
        && web.keys.is_empty()
        && !web.trusted_field
}

/// What so many collections are called.
fn collections_word(count: usize) -> &'static str
    ensures { result.now ≡ collections_word count }
{
    if count == 1 {
        " collection"
    } else {
        " collections"
    }
}

/// How many keys there are, as it is told.
#[derive(Clone, Copy)]
struct KeysPart {
    count: usize,
}

impl fmt::Display for KeysPart {
    ghost use Rattle.std.specs.Prelude.{Some};
    ghost use Rattle.configuration.specs.Checking.{keys_part};

    ghost output = { λ part. Some (keys_part part.count) };

    fn fmt<W: fmt::Write>(&self, f: &mut fmt::Formatter<W>) -> fmt::Result {
        match self.count {
            0 => Ok(()),
            1 => f.write_str(", 1 key"),
            count => write!(f, ", {count} keys"),
        }
    }
}

/// What links begin with, as it is told.
#[derive(Drop)]
struct LinksPart<'a, A: Allocator> {
    web: &'a Web<A>,
}

impl<A: Allocator> fmt::Display for LinksPart<'_, A> {
    ghost use Rattle.std.specs.Prelude.{Some};
    ghost use Rattle.configuration.specs.Checking.{links_part};
    ghost use Rattle.configuration.specs.Configs.{web_data};

    ghost output = { λ part. Some (links_part (web_data part.web.now).public) };

    fn fmt<W: fmt::Write>(&self, f: &mut fmt::Formatter<W>) -> fmt::Result {
        match &self.web.public {
            Some(public) => write!(f, ", links begin with {public}"),
            None => Ok(()),
        }
    }
}

/// Whose requests are those that do not say who asks, as it is told.
#[derive(Clone, Copy)]
struct AskerPart {
    anonymous: Option<Name>,
}

impl fmt::Display for AskerPart {
    ghost use Rattle.std.specs.Prelude.{Some};
    ghost use Rattle.configuration.specs.Checking.{asker_part};

    ghost output = { λ part. Some (asker_part part.anonymous) };

    fn fmt<W: fmt::Write>(&self, f: &mut fmt::Formatter<W>) -> fmt::Result {
        match self.anonymous {
            Some(name) => write!(f, ", requests without a name are {name}'s"),
            None => Ok(()),
        }
    }
}

/// Who may read the metrics, as it is told.
#[derive(Clone, Copy)]
struct MetricsPart {
    metrics: Option<Name>,
}

impl fmt::Display for MetricsPart {
    ghost use Rattle.std.specs.Prelude.{Some};
    ghost use Rattle.configuration.specs.Checking.{metrics_part};

    ghost output = { λ part. Some (metrics_part part.metrics) };

    fn fmt<W: fmt::Write>(&self, f: &mut fmt::Formatter<W>) -> fmt::Result {
        match self.metrics {
            Some(name) => write!(f, ", metrics are for {name}"),
            None => Ok(()),
        }
    }
}

/// That a field is trusted, as it is told.
fn field_part(trusted: bool) -> &'static str
    ensures { result.now ≡ field_part trusted }
{
    if trusted {
        ", the field landmap-subject is trusted"
    } else {
        ""
    }
}

/// What is said of HTTP, as it is told: one line, or nothing.
#[derive(Drop)]
pub(crate) struct WebLine<'a, A: Allocator> {
    pub web: &'a Web<A>,
}

impl<A: Allocator> fmt::Display for WebLine<'_, A> {
    ghost use Rattle.std.specs.Prelude.{Some};
    ghost use Rattle.configuration.specs.Checking.{web_part};
    ghost use Rattle.configuration.specs.Configs.{web_data};

    ghost output = { λ line. Some (web_part (web_data line.web.now)) };

    fn fmt<W: fmt::Write>(&self, f: &mut fmt::Formatter<W>) -> fmt::Result {
        if is_silent(self.web) {
            return Ok(());
        }
        let count = self.web.collections.len();
        write!(
            f,
            "http: {}{}{}{}{}{}{}\n",
            count,
            collections_word(count),
            KeysPart {
                count: self.web.keys.len()
            },
            LinksPart { web: self.web },
            AskerPart {
                anonymous: self.web.anonymous
            },
            MetricsPart {
                metrics: self.web.metrics
            },
            field_part(self.web.trusted_field)
        )
    }
}
