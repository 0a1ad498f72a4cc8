//! A secret and its digest, as texts.

ghost use Rattle.std.specs.Prelude.{◌≡◌};
ghost use Rattle.secrets.specs.Secrets.{digest_text, secret_of};

use base64::engine::general_purpose::URL_SAFE_NO_PAD;
use hex::encode_to_slice;
use sha2::{Digest, Sha256};

/// Of how many random bytes a secret is made.
pub const RANDOM_LENGTH: usize = 32;

/// How many characters a secret has.
pub const SECRET_LENGTH: usize = 43;

/// How many hexadecimal digits a digest has.
pub const DIGEST_LENGTH: usize = 64;

/// The secret that is made of random bytes.
#[tactic(auto, unfolding(crate::specs::Secrets::secret_of))]
pub(crate) fn secret_of(random: &[u8; RANDOM_LENGTH]) -> [u8; SECRET_LENGTH]
    ensures { result ≡ secret_of random.now }
{
    let mut text = [0; SECRET_LENGTH];
    match URL_SAFE_NO_PAD.encode_slice(random, &mut text) {
        Ok(_) => text,
        Err(_) => unreachable!(),
    }
}

/// The digest of a secret, in hexadecimal digits.
#[tactic(auto, unfolding(crate::specs::Secrets::digest_text))]
pub(crate) fn digest_text(secret: &[u8; SECRET_LENGTH]) -> [u8; DIGEST_LENGTH]
    ensures { result ≡ digest_text secret.now }
{
    let digest = Sha256::digest(secret.as_slice());
    let mut text = [0; DIGEST_LENGTH];
    match encode_to_slice(digest, &mut text) {
        Ok(()) => text,
        Err(_) => unreachable!(),
    }
}
