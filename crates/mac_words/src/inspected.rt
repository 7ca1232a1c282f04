//! What bytes spell, told to people.

ghost use Rattle.std.specs.Prelude.{◌≡◌, ◌++◌, OnOk, IfOk};
ghost use Rattle.mac_words.specs.Inspected.{Inspects, IsInspected, TellsWhose, head_text, line};
ghost use Rattle.mac_words.specs.Inspected.{tail_text, whose_text};
ghost use Rattle.mac_words.specs.Escaped.{escaped};

use crate::caveat_lines::append_caveats;
use crate::escaped::append_escaped;
use crate::spelled::Spelling;
use mac_token::{RawToken, TokenFault, read_raw};
use mac_wire::NoMemory;
use std::alloc::Global;

/// What the bytes spell, be it a token that is taken or not: its form, location, identifier,
/// caveats, signature and length, a line each.
pub fn inspect(alloc: Global, token: &[u8]) -> Result<Vec<u8>, TokenFault>
    ensures { Inspects token.now result }
{
    let raw = read_raw(alloc, token)?;
    Ok(inspected(alloc, token, &raw)?)
}

/// Whose a token is, be it one that is taken or not.
#[derive(Drop)]
pub struct Whose {
    /// Its identifier.
    pub identifier: Vec<u8>,
    /// The lines that tell its location and its identifier.
    pub text: Vec<u8>,
}

/// Whose token the bytes spell.
pub fn find_whose(alloc: Global, token: &[u8]) -> Result<Whose, TokenFault>
    ensures { TellsWhose token.now result }
{
    let raw = read_raw(alloc, token)?;
    let mut text = Vec::new(alloc);
    append_whose(&raw, &mut text)?;
    let identifier = Vec::from_slice(alloc, raw.identifier.as_slice())?;
    Ok(Whose { identifier, text })
}

/// The text that tells a token which the bytes spell.
fn inspected(alloc: Global, token: &[u8], raw: &RawToken) -> Result<Vec<u8>, NoMemory>
    ensures { IfOk result (λ text. IsInspected token.now raw.now text.items) }
{
    let mut text = Vec::new(alloc);
    append_head(token, raw, &mut text)?;
    append_caveats(alloc, raw.caveats.as_slice(), &mut text)?;
    append_tail(alloc, token, raw, &mut text)?;
    Ok(text)
}

/// Appends the lines in front of the caveats.
fn append_head(token: &[u8], raw: &RawToken, out: &mut Vec<u8>) -> Result<(), NoMemory>
    ensures { OnOk result (out.new.items ≡ out.old.items ++ head_text token.now raw.now) }
{
    append_line(b"form: ", Spelling::of(token).name().as_bytes(), out)?;
    append_whose(raw, out)
}

/// Appends the lines of the location and of the identifier.
fn append_whose(raw: &RawToken, out: &mut Vec<u8>) -> Result<(), NoMemory>
    ensures { OnOk result (out.new.items ≡ out.old.items ++ whose_text raw.now) }
{
    append_escaped_line(b"location: ", raw.location.as_bytes(), out)?;
    append_escaped_line(b"identifier: ", raw.identifier.as_slice(), out)?;
    Ok(())
}

/// Appends the lines behind the caveats.
fn append_tail(
    alloc: Global,
    token: &[u8],
    raw: &RawToken,
    out: &mut Vec<u8>,
) -> Result<(), NoMemory>
    ensures { OnOk result (out.new.items ≡ out.old.items ++ tail_text token.now raw.now) }
{
    let digits = hex::encode(alloc, &raw.sig)?;
    let length = token.len();
    let number = format!(in alloc; "{length}")?;
    append_line(b"signature: ", digits.as_bytes(), out)?;
    append_line(b"bytes: ", number.as_bytes(), out)?;
    Ok(())
}

/// Appends a line: a name and words.
#[tactic(auto, unfolding(crate::specs::Inspected::line))]
fn append_line(name: &[u8], words: &[u8], out: &mut Vec<u8>) -> Result<(), NoMemory>
    ensures { OnOk result (out.new.items ≡ out.old.items ++ line name.now words.now) }
{
    out.extend_from_slice(name)?;
    out.extend_from_slice(words)?;
    out.extend_from_slice(b"\n")?;
    Ok(())
}

/// Appends a line: a name, and bytes as they are shown.
#[tactic(auto, unfolding(crate::specs::Inspected::line))]
fn append_escaped_line(name: &[u8], words: &[u8], out: &mut Vec<u8>) -> Result<(), NoMemory>
    ensures { OnOk result (out.new.items ≡ out.old.items ++ line name.now (escaped words.now)) }
{
    out.extend_from_slice(name)?;
    append_escaped(words, out)?;
    out.extend_from_slice(b"\n")?;
    Ok(())
}
