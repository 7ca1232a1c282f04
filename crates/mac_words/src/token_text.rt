//! Tokens as people write and see them.

ghost use Rattle.std.specs.Prelude.{◌≡◌, ◌++◌, IfErr, IfOk, OnOk};
ghost use Rattle.hex.specs.Hex.{decode_of};
ghost use Rattle.mac_words.specs.TokenText.{bytes_told, token_text, IsToldBadly};

use crate::fault::TextFault;
use hex::FromHexError;
use mac_wire::NoMemory;
use std::alloc::Global;

/// The first byte of a token in V2 binary, which is no text.
const BINARY: u8 = 2;

/// The bytes of a token that is written as `hex:` and digits of either case, or as its text.
pub fn token_bytes(alloc: Global, text: &[u8]) -> Result<Vec<u8>, TextFault>
    ensures bytes { IfOk result (λ bytes. bytes_told text.now ≡ Ok bytes.items) }
    ensures fault { IfErr result (IsToldBadly (bytes_told text.now)) }
{
    match text.strip_prefix(b"hex:") {
        Some(digits) => digits_bytes(alloc, digits),
        None => Ok(Vec::from_slice(alloc, text)?),
    }
}

/// The bytes that hexadecimal digits spell.
fn digits_bytes(alloc: Global, digits: &[u8]) -> Result<Vec<u8>, TextFault>
    ensures bytes { IfOk result (λ bytes. decode_of digits.now ≡ Ok bytes.items) }
    ensures fault { IfErr result (IsToldBadly (decode_of digits.now)) }
{
    match hex::decode(alloc, digits) {
        Ok(bytes) => Ok(bytes),
        Err(FromHexError::OutOfMemory) => Err(TextFault::Memory),
        Err(_) => Err(TextFault::BadHex),
    }
}

/// Appends a token: V2 binary in hexadecimal behind `hex:`, any other as the text that it is.
pub fn append_token_text(alloc: Global, token: &[u8], out: &mut Vec<u8>) -> Result<(), NoMemory>
    ensures { OnOk result (out.new.items ≡ out.old.items ++ token_text token.now) }
{
    if token.first() == Some(&BINARY) {
        let digits = hex::encode(alloc, token)?;
        out.extend_from_slice(b"hex:")?;
        out.extend_from_slice(digits.as_bytes())
    } else {
        out.extend_from_slice(token)
    }
}
