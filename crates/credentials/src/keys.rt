//! Keys.

ghost use Rattle.std.specs.Prelude.{◌≡◌, nat_eq};
ghost use Rattle.std.specs.Cmp.Lexicographic.{pointwise};
ghost use Rattle.sha2.specs.Sha256.{sha256};
ghost use Rattle.credentials.specs.Asking.{has_key, is_key};

use features::Name;
use sha2::{Digest, Sha256};

/// What lets somebody ask as a subject: a secret, of which only the digest is known here.
#[derive(Clone, Copy, Debug)]
pub struct Key {
    /// As whom.
    pub subject: Name,
    /// The SHA-256 of the secret (FIPS 180-4, 6.2).
    pub digest: [u8; 32],
}

/// The SHA-256 of a secret.
pub fn digest_of(secret: &[u8]) -> [u8; 32]
    ensures { result ≡ sha256 secret.now }
{
    Sha256::digest(secret)
}

/// Whether two digests are the same. It goes on to the end wherever they differ, so its time does
/// not tell how many bytes agree.
fn are_same(one: &[u8; 32], other: &[u8; 32]) -> bool
    ensures { result ≡ pointwise nat_eq one.now other.now }
{
    let mut same = true;
    for at in 0..32 {
        same &= one[at] == other[at];
    }
    same
}

/// Whether a key is of this name and this digest.
fn is_key(name: &Name, digest: &[u8; 32], key: &Key) -> bool
    ensures { result ≡ is_key name.now digest.now key.now }
{
    key.subject == *name && are_same(&key.digest, digest)
}

/// Whether one of the keys is of this name and of the digest of this secret.
pub fn has_key(keys: &[Key], name: &Name, secret: &[u8]) -> bool
    ensures { result ≡ has_key keys.now name.now secret.now }
{
    let digest = digest_of(secret);
    keys.iter().any(|key| is_key(name, &digest, key))
}
