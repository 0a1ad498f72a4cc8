//! A `datetime`: a moment, or an interval of two, one of which may be open.

ghost use Rattle.std.specs.Prelude.{◌≡◌, ◌≤◌, ◌<◌, length};
ghost use Rattle.std.specs.Char.{is_ascii_digit};
ghost use Rattle.std.specs.List.{prefix_len};
ghost use Rattle.map_asks.specs.Dates.{figure, has_form, behind_fraction, number, is_leap, days_in, has_day, is_day_of, is_day, is_date, is_time, is_clock, is_shift, is_offset, is_zone, is_moment, is_end, is_datetime};

use crate::cuts::cut;

/// A byte of a form: each digit is `0`, and a small `t` or `z` is a capital one.
fn figure(byte: u8) -> u8
    ensures { result ≡ figure byte }
{
    if byte.is_ascii_digit() {
        b'0'
    } else if byte == b't' {
        b'T'
    } else if byte == b'z' {
        b'Z'
    } else {
        byte
    }
}

/// Whether a text is a form, but for its digits.
fn has_form(form: &[u8], text: &[u8]) -> bool
    ensures { result ≡ has_form form.now text.now }
{
    let mut rest = text;
    for wanted in form {
        let [byte, behind @ ..] = rest else {
            return false;
        };
        if figure(*byte) != *wanted {
            return false;
        }
        rest = behind;
    }
    rest.is_empty()
}

/// How many digits a text begins with.
#[tactic(auto, using(crate::proofs::CutLemmas::prefix_fits))]
fn digits_len(text: &[u8]) -> usize
    ensures value { result ≡ prefix_len is_ascii_digit text.now }
    ensures fits { result ≤ length text.now }
{
    text.iter().take_while(|byte| byte.is_ascii_digit()).count()
}

/// A text without the fraction of a second at its front: a point and digits.
fn behind_fraction(text: &[u8]) -> &[u8]
    ensures { result.now ≡ behind_fraction text.now }
{
    match text {
        [b'.', b'0'..=b'9', rest @ ..] => &rest[digits_len(rest)..],
        _ => text,
    }
}

/// The number of two digits.
fn number(tens: u8, ones: u8) -> u32
    ensures value { result ≡ number tens ones }
    ensures small { result < 10_000 }
{
    u32::from(tens.saturating_sub(b'0')) * 10 + u32::from(ones.saturating_sub(b'0'))
}

/// Whether a year has a 29th of February.
fn is_leap(year: u32) -> bool
    ensures { result ≡ is_leap year }
{
    year % 4 == 0 && (year % 100 != 0 || year % 400 == 0)
}

/// How many days a month has.
fn days_in(year: u32, month: u32) -> u32
    ensures { result ≡ days_in year month }
{
    match month {
        2 if is_leap(year) => 29,
        2 => 28,
        4 | 6 | 9 | 11 => 30,
        _ => 31,
    }
}

/// Whether there is such a month, and it has such a day.
fn has_day(year: u32, month: u32, day: u32) -> bool
    ensures { result ≡ has_day year month day }
{
    0 < month && month < 13 && 0 < day && day <= days_in(year, month)
}

/// Whether what has the form of a month and a day is one of this year.
fn is_day_of(year: u32, text: &[u8]) -> bool
    ensures { result ≡ is_day_of year text.now }
{
    let [_, m, n, _, x, y, ..] = text else {
        return false;
    };
    has_day(year, number(*m, *n), number(*x, *y))
}

/// Whether what has the form of a date is one.
fn is_day(text: &[u8]) -> bool
    ensures { result ≡ is_day text.now }
{
    let [a, b, c, d, rest @ ..] = text else {
        return false;
    };
    is_day_of(number(*a, *b) * 100 + number(*c, *d), rest)
}

/// Whether a text is a date.
fn is_date(text: &[u8]) -> bool
    ensures { result ≡ is_date text.now }
{
    has_form(b"0000-00-00", text) && is_day(text)
}

/// Whether what has the form of a time of day is one.
fn is_time(text: &[u8]) -> bool
    ensures { result ≡ is_time text.now }
{
    let [_, h, i, _, m, n, _, s, t, ..] = text else {
        return false;
    };
    number(*h, *i) < 24 && number(*m, *n) < 60 && number(*s, *t) < 61
}

/// Whether a text is a time of day behind its `T`.
fn is_clock(text: &[u8]) -> bool
    ensures { result ≡ is_clock text.now }
{
    has_form(b"T00:00:00", text) && is_time(text)
}

/// Whether what has the form of an offset is one.
fn is_shift(text: &[u8]) -> bool
    ensures { result ≡ is_shift text.now }
{
    let [_, h, i, _, m, n, ..] = text else {
        return false;
    };
    number(*h, *i) < 24 && number(*m, *n) < 60
}

/// Whether a text is an offset from UTC.
fn is_offset(text: &[u8]) -> bool
    ensures { result ≡ is_offset text.now }
{
    (has_form(b"+00:00", text) || has_form(b"-00:00", text)) && is_shift(text)
}

/// Whether a text is a time zone.
fn is_zone(text: &[u8]) -> bool
    ensures { result ≡ is_zone text.now }
{
    has_form(b"Z", text) || is_offset(text)
}

/// Whether a text is a date, or a date with a time of day and a zone (RFC 3339, 5.6 and 5.7).
#[tactic(auto, unfolding(crate::specs::Dates::is_moment))]
fn is_moment(text: &[u8]) -> bool
    ensures { result ≡ is_moment text.now }
{
    if is_date(text) {
        return true;
    }
    if text.len() < 19 {
        return false;
    }
    let (date, rest) = text.split_at(10);
    let (clock, rest) = rest.split_at(9);
    is_date(date) && is_clock(clock) && is_zone(behind_fraction(rest))
}

/// Whether a text is an end of an interval: a moment, or open.
fn is_end(text: &[u8]) -> bool
    ensures { result ≡ is_end text.now }
{
    text.is_empty() || text == b"..".as_slice() || is_moment(text)
}

/// Whether a text is a `datetime`: a moment, or an interval.
#[tactic(auto, unfolding(crate::specs::Dates::is_datetime))]
pub(crate) fn is_datetime(text: &[u8]) -> bool
    ensures { result ≡ is_datetime text.now }
{
    let (begin, rest) = cut(b'/', text);
    match rest {
        [] => is_moment(begin),
        [_, end @ ..] => is_end(begin) && is_end(end) && (is_moment(begin) || is_moment(end)),
    }
}
