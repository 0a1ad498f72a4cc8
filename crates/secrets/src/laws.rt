//! A consequence of the definitions alone. The function does nothing: it is its contract.

ghost use Rattle.std.specs.Prelude.{◌≡◌, ℕ, List, Ok};
ghost use Rattle.hex.specs.Hex.{decode_sized};
ghost use Rattle.sha2.specs.Sha256.{sha256};
ghost use Rattle.secrets.specs.Secrets.{digest_text};

/// What is printed as the digest of a secret is read, as 32 bytes in hexadecimal digits, as its
/// SHA-256.
pub fn digests_are_read()
    ensures { (secret : List ℕ) → decode_sized (digest_text secret) 32 ≡ Ok (sha256 secret) }
{}
