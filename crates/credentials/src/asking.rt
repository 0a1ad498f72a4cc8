//! Who asks, by what a field spells.

ghost use Rattle.std.specs.Prelude.{◌≡◌, ◌≤◌, length};
ghost use Rattle.std.specs.Option.{option_and_then};
ghost use Rattle.credentials.specs.Asking.{asker_of, let_in};
ghost use Rattle.credentials.specs.Spelling.{basic, bearer, credentials_at, named, of_scheme};
ghost use Rattle.credentials.specs.declared.spelling.TheConstants.{FIELD_LIMIT};

use crate::keys::{Key, has_key};
use crate::spelling::{FIELD_LIMIT, divided, unspaced};
use base64::engine::general_purpose::STANDARD;
use features::Name;

/// The most bytes that a token spells in base64: three for each four of it.
const SPELLED_LIMIT: usize = FIELD_LIMIT / 4 * 3;

/// The name, where it is one and a key of it has this secret.
fn let_in(keys: &[Key], name: &[u8], secret: &[u8]) -> Option<Name>
    ensures { result ≡ option_and_then (let_in keys.now) (named (name.now, secret.now)) }
{
    let name = Name::new(name)?;
    if has_key(keys, &name, secret) {
        Some(name)
    } else {
        None
    }
}

/// Who asks by a name and a secret that the first of a byte divides.
fn asker_at(keys: &[Key], mark: u8, text: &[u8]) -> Option<Name>
    ensures { result ≡ option_and_then (let_in keys.now) (credentials_at mark text.now) }
{
    let (name, secret) = divided(mark, text)?;
    let_in(keys, name, secret)
}

/// Who asks by the token of `Basic`.
fn asker_by_basic(keys: &[Key], token: &[u8]) -> Option<Name>
    requires { length token.now ≤ FIELD_LIMIT }
    ensures { result ≡ option_and_then (let_in keys.now) (basic token.now) }
{
    let mut spelled = [0; SPELLED_LIMIT];
    let Ok(len) = STANDARD.decode_slice_unchecked(token, &mut spelled) else {
        return None;
    };
    asker_at(keys, b':', &spelled[..len])
}

/// Who asks by a token of a scheme.
fn asker_by(keys: &[Key], scheme: &[u8], token: &[u8]) -> Option<Name>
    requires { length token.now ≤ FIELD_LIMIT }
    ensures { result ≡ option_and_then (let_in keys.now) (of_scheme scheme.now token.now) }
{
    if scheme.eq_ignore_ascii_case(b"Basic") {
        asker_by_basic(keys, token)
    } else if scheme.eq_ignore_ascii_case(b"Bearer") {
        asker_at(keys, b'.', token)
    } else {
        None
    }
}

/// Who asks by a field `authorization`: the name that it spells, where one of the keys is of this
/// name and has the SHA-256 of the secret that it spells. A field of more than `FIELD_LIMIT` bytes
/// spells nothing.
pub fn asker_of(keys: &[Key], field: &[u8]) -> Option<Name>
    ensures { result ≡ asker_of keys.now field.now }
{
    if field.len() > FIELD_LIMIT {
        return None;
    }
    let (scheme, rest) = divided(b' ', field)?;
    asker_by(keys, scheme, unspaced(rest))
}
