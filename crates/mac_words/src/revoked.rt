//! Lines that take tokens back, made anew and taken out.

ghost use Rattle.std.specs.Prelude.{◌≡◌, ◌++◌, IfOk};
ghost use Rattle.mac_words.specs.Revoked.{GivesRevoked, count_text, ended, kept_lines, says};

use crate::key_lines::NameFault;
use mac_keys::{RevokedList, count_lines, is_name};
use std::alloc::{AllocError, Global};

/// The line `revoked NAME HEX` that takes tokens of a name with an identifier back, with its line
/// feed.
pub fn revoked_line(alloc: Global, name: &str, identifier: &[u8]) -> Result<Vec<u8>, NameFault>
    ensures { GivesRevoked name.now identifier.now result }
{
    if !is_name(name.as_bytes()) {
        return Err(NameFault::BadName);
    }
    let digits = hex::encode(alloc, identifier)?;
    let mut line = Vec::new(alloc);
    line.extend_from_slice(b"revoked ")?;
    line.extend_from_slice(name.as_bytes())?;
    line.extend_from_slice(b" ")?;
    line.extend_from_slice(digits.as_bytes())?;
    line.extend_from_slice(b"\n")?;
    Ok(line)
}

/// What is told of a list that has no fault: how many of its lines take tokens back.
pub fn told_lines(alloc: Global, text: &[u8]) -> Result<Vec<u8>, AllocError>
    ensures { IfOk result (λ told. told.items ≡ count_text text.now) }
{
    let count = count_lines(text);
    let number = format!(in alloc; "{count}")?;
    let mut told = Vec::new(alloc);
    told.extend_from_slice(b"revoked lines: ")?;
    told.extend_from_slice(number.as_bytes())?;
    told.extend_from_slice(b"\n")?;
    Ok(told)
}

/// A text that ends with a line feed, if it isn't empty, and a line behind it.
pub fn put_behind(alloc: Global, text: &[u8], line: &[u8]) -> Result<Vec<u8>, AllocError>
    ensures { IfOk result (λ changed. changed.items ≡ ended text.now ++ line.now) }
{
    let mut changed = Vec::from_slice(alloc, text)?;
    if !text.is_empty() && !text.ends_with(b"\n") {
        changed.extend_from_slice(b"\n")?;
    }
    changed.extend_from_slice(line)?;
    Ok(changed)
}

/// A list without its lines that take tokens of the name with the identifier back.
pub fn without_revoked(
    alloc: Global,
    text: &[u8],
    name: &[u8],
    identifier: &[u8],
) -> Result<Vec<u8>, AllocError>
    ensures { IfOk result (λ changed.
        changed.items ≡ kept_lines name.now identifier.now text.now) }
{
    let mut kept = Vec::new(alloc);
    let mut is_first = true;
    for line in text.split(|byte| *byte == b'\n') {
        if says(alloc, line, name, identifier)? {
            continue;
        }
        if !is_first {
            kept.extend_from_slice(b"\n")?;
        }
        is_first = false;
        kept.extend_from_slice(line)?;
    }
    Ok(kept)
}

/// Whether a line takes tokens of the name with the identifier back.
fn says(alloc: Global, line: &[u8], name: &[u8], identifier: &[u8]) -> Result<bool, AllocError>
    ensures { IfOk result (λ is. is ≡ says name.now identifier.now line.now) }
{
    match RevokedList::read(alloc, line) {
        Ok(list) => Ok(list.has(name, identifier)),
        Err(mac_keys::RevokedFault::Memory) => Err(AllocError),
        Err(mac_keys::RevokedFault::Line { .. }) => Ok(false),
    }
}
