//! Base64 text (RFC 4648) of either alphabet, padded or not.

ghost use Rattle.std.specs.Prelude.{◌≡◌, ◌≢◌, ◌-◌, ◌↔◌, ℕ, List, [], Some, Ok, true, false, IsTrue, IfOk, MatchOption, length, slice_get};
ghost use Rattle.std.specs.List.{All};
ghost use Rattle.std.specs.String.{string_bytes};
ghost use Rattle.mac_token.specs.Base64Text.{IsBase64Of, base64_of};

use crate::fault::NoMemory;
use base64::DecodeAllocError;
use base64::engine::general_purpose::{STANDARD, STANDARD_NO_PAD, URL_SAFE, URL_SAFE_NO_PAD};
use std::alloc::{AllocError, Global};

/// Whether the text has neither of the two letters that only the URL-safe alphabet has.
fn lacks_url_letters(text: &[u8]) -> bool
    ensures { IsTrue result ↔ All (λ letter. (letter ≢ 45) × (letter ≢ 95)) text.now }
{
    text.iter().all(|letter| *letter != b'-' && *letter != b'_')
}

/// Whether the text ends in the padding letter.
fn is_padded(text: &[u8]) -> bool
    ensures { IsTrue result ↔ (slice_get text.now (length text.now - 1) ≡ Some 61) }
{
    text.last().copied() == Some(b'=')
}

/// Puts the bytes that a base64 text spells into an empty vector, and says whether it spells any.
/// Its letters decide on one alphabet for the whole text, so that a text which mixes the two is
/// refused for the other's letters, and its last letter decides on padding. Time is linear in the
/// text. Memory is taken only where the vector has too little.
pub(crate) fn decode_into(bytes: &mut Vec<u8>, text: &[u8]) -> Result<bool, NoMemory>
    requires { bytes.old.items ≡ [] }
    ensures spelled { result ≡ Ok true → IsBase64Of text.now bytes.new.items }
    ensures none { result ≡ Ok false → (other : List ℕ) → ¬ IsBase64Of text.now other }
    ensures kept { result ≢ Ok true → bytes.new.items ≡ [] }
{
    let decoded = match (lacks_url_letters(text), is_padded(text)) {
        (true, true) => STANDARD.decode_vec(text, bytes),
        (true, false) => STANDARD_NO_PAD.decode_vec(text, bytes),
        (false, true) => URL_SAFE.decode_vec(text, bytes),
        (false, false) => URL_SAFE_NO_PAD.decode_vec(text, bytes),
    };
    match decoded {
        Ok(()) => Ok(true),
        Err(DecodeAllocError::DecodeError(_)) => Ok(false),
        Err(DecodeAllocError::OutOfMemory) => Err(AllocError),
    }
}

/// The bytes that a base64 text spells, or `None` where it spells none.
pub(crate) fn decode(alloc: Global, text: &[u8]) -> Result<Option<Vec<u8>>, NoMemory>
    ensures { IfOk result (λ found. MatchOption found
        ((bytes : List ℕ) → ¬ IsBase64Of text.now bytes)
        (λ bytes. IsBase64Of text.now bytes.items)) }
{
    let mut bytes = Vec::new(alloc);
    if decode_into(&mut bytes, text)? {
        Ok(Some(bytes))
    } else {
        Ok(None)
    }
}

/// The base64 text of bytes, URL-safe and unpadded.
pub(crate) fn encode(alloc: Global, bytes: &[u8]) -> Result<String, NoMemory>
    ensures { IfOk result (λ text. string_bytes text ≡ base64_of bytes.now) }
{
    URL_SAFE_NO_PAD.encode(alloc, bytes)
}
