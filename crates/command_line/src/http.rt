//! Where a server also answers HTTP.

ghost use Rattle.std.specs.Prelude.{◌≡◌, codes, option_map, MatchResult};
ghost use Rattle.std.specs.declared.net.socket_addr.SocketAddr.{SocketAddr};
ghost use Rattle.clap.specs.Words.{first_of, found_of, rows_of};
ghost use Rattle.command_line.specs.Http.{IsHttp, IsHttpAt, IsHttpFault, IsOwnAddress, IsUnclear};

use crate::words::Shown;
use clap::ArgMatches;
use std::net::SocketAddr;

/// Where a server also answers HTTP.
#[derive(Clone, Copy, Debug, PartialEq, Eq)]
pub enum HttpWord<'a> {
    /// At this address, one of the machine itself.
    Address(SocketAddr),
    /// On the Unix socket at this path.
    Socket(&'a str),
}

/// The address that a text writes, or a mistake, where that is none of the machine itself.
fn own_address<'a>(text: &'a str) -> Result<SocketAddr, Shown<'a>>
    ensures { MatchResult result (IsOwnAddress text.entry.now)
        (λ _. (address : SocketAddr) → ¬ (IsOwnAddress text.entry.now address)) }
{
    let Ok(address) = text.parse::<SocketAddr>() else {
        return Err(Shown::NoAddress(text));
    };
    if address.ip().is_loopback() {
        Ok(address)
    } else {
        Err(Shown::FarAddress(text))
    }
}

/// What an address and a socket's path say, at most one of which may be given.
fn http_word<'a>(
    address: Option<&'a str>,
    socket: Option<&'a str>,
) -> Result<Option<HttpWord<'a>>, Shown<'a>>
    ensures { MatchResult result
        (IsHttp (option_map (λ text. text.now) address.entry)
        (option_map (λ path. path.now) socket.entry))
        (λ _. IsUnclear (option_map (λ text. text.now) address.entry)
        (option_map (λ path. path.now) socket.entry)) }
{
    match (address, socket) {
        (None, None) => Ok(None),
        (None, Some(path)) => Ok(Some(HttpWord::Socket(path))),
        (Some(text), None) => match own_address(text) {
            Ok(address) => Ok(Some(HttpWord::Address(address))),
            Err(mistake) => Err(mistake),
        },
        (Some(_), Some(_)) => Err(Shown::TwoPlaces),
    }
}

/// Where HTTP is answered, or a mistake: both places are given, the address is none of the machine
/// itself, or the server ends after some connections.
pub(crate) fn asked_http<'a>(given: &ArgMatches<'a>) -> Result<Option<HttpWord<'a>>, Shown<'a>>
    ensures { MatchResult result (IsHttpAt (λ id. first_of id (rows_of (found_of given.now))))
        (λ _. IsHttpFault (λ id. first_of id (rows_of (found_of given.now)))) }
{
    let http = match http_word(given.get_str("http"), given.get_str("http-socket")) {
        Ok(http) => http,
        Err(mistake) => return Err(mistake),
    };
    if http.is_some() && given.get_str("connections").is_some() {
        return Err(Shown::EndOfHttp);
    }
    Ok(http)
}
