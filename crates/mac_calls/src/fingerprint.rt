//! Fingerprints of keys, by which the key files of two machines are compared.

ghost use Rattle.std.specs.Prelude.{◌≡◌, ◌++◌, OnOk};
ghost use Rattle.mac_calls.specs.Fingerprint.{fingerprint};

use mac_hmac::{RootKey, start};
use std::alloc::{AllocError, Global};

/// What each key signs for its fingerprint.
const FINGERPRINTED: &[u8] = b"macaroond fingerprint";

/// Appends the fingerprint of a key: eight hexadecimal digits, which are the first four bytes of
/// the HMAC of a fixed text under it.
///
/// It gives away neither the key nor a token. HMAC with SHA-256 is taken for a pseudorandom
/// function, on which tokens rest too: its bytes for one text say nothing of the key, nor of those
/// for another. They would begin the signature of a token with that text for its identifier, whose
/// other 28 bytes nobody is told. Guesses of a weak secret can be tried on a fingerprint, as on any
/// token.
pub fn append_fingerprint(alloc: Global, key: &RootKey, out: &mut Vec<u8>) -> Result<(), AllocError>
    ensures { OnOk result (out.new.items ≡ out.old.items ++ fingerprint key.now) }
{
    let signed = start(key, FINGERPRINTED).bytes();
    let digits = hex::encode(alloc, &signed[..4])?;
    out.extend_from_slice(digits.as_bytes())
}
