//! A change of keys: a line of a name put into the text of a key file, or taken out of it.
ghost use Rattle.std.specs.Prelude.{◌≡◌, ◌+◌, ◌<◌, ◌≤◌, ◌==◌, ◌++◌, ◌∷◌, ℕ, List, false, length};
ghost use Rattle.std.specs.Prelude.{take, drop, All, IfOk, IfErr, IfSome, MatchOption};
ghost use Rattle.std.specs.List.{count_by};
ghost use Rattle.mac_hmac.specs.Chain.{root_of};
ghost use Rattle.mac_keys.specs.Change.{AddsKey, AddsLower, DropsFirst, DropsKey, HasKeys, HasOne};
ghost use Rattle.mac_keys.specs.Change.{HasTwo, IsFileFault, IsKeyLine, IsLower, PutsAbove};
ghost use Rattle.mac_keys.specs.Change.{RaisesLower, RefusesAbove, RefusesDrop, SwapsKeys};
ghost use Rattle.mac_keys.specs.Change.{TakesLower};
ghost use Rattle.mac_keys.specs.Found.{IsFound, IsUnbroken, is_line_of};
ghost use Rattle.mac_keys.specs.Table.{lines_of};
ghost use Rattle.mac_keys.specs.declared.change.ChangeFault.TheVariants.{File};
ghost use Rattle.mac_keys.specs.declared.fault.KeyFault.TheVariants.{Memory};

use crate::fault::KeyFault;
use crate::key_map::KeyMap;
use crate::keys::Keys;
use crate::line::is_line_of;
use std::alloc::{AllocError, Global};
use thiserror::Error;

/// Why the keys of a name don't change.
#[derive(Clone, Copy, Debug, PartialEq, Eq, Error)]
pub enum ChangeFault {
    /// The key file can't be read.
    #[error("{0}")]
    File(KeyFault),
    /// No line gives the name a secret.
    #[error("the name has no line")]
    NoLine,
    /// One line alone gives the name a secret.
    #[error("the name has one line alone")]
    OneLine,
    /// Two lines give the name a secret, and a third may not.
    #[error("the name has two lines already")]
    TwoLines,
}

impl From<KeyFault> for ChangeFault {
    ghost from_gives = { λ fault change. change ≡ File fault };

    fn from(fault: KeyFault) -> ChangeFault {
        ChangeFault::File(fault)
    }
}

impl From<AllocError> for ChangeFault {
    ghost from_gives = { λ _ change. change ≡ File Memory };

    fn from(_refused: AllocError) -> ChangeFault {
        ChangeFault::File(KeyFault::Memory)
    }
}

/// The text with a line above that of a name which has one: the first half of a change of keys.
///
/// The name's new key mints from then on, and its old one is still verified. Takes the time and the
/// memory of a reading, and a copy of the text.
pub fn add_above(
    alloc: Global,
    text: &[u8],
    name: &[u8],
    line: &[u8],
) -> Result<Vec<u8>, ChangeFault>
    ensures text { IfOk result (λ changed.
        PutsAbove name.now line.now text.now changed.items) }
    ensures table { IfOk result (λ changed. (secret : List ℕ)
        → IsKeyLine name.now secret line.now
        → AddsKey name.now (root_of secret) text.now changed.items) }
    ensures fault { IfErr result (RefusesAbove text.now name.now) }
{
    let Some(keys) = read_keys(alloc, text, name)? else {
        return Err(ChangeFault::NoLine);
    };
    if keys.second.is_some() {
        return Err(ChangeFault::TwoLines);
    }
    Ok(put_above(alloc, text, name, line)?)
}

/// The text without the lower line of a name that has two: the last half of a change of keys.
///
/// What was minted under the name's old key is refused from then on. Takes the time and the memory
/// of a reading, and a copy of the text.
pub fn drop_lower(alloc: Global, text: &[u8], name: &[u8]) -> Result<Vec<u8>, ChangeFault>
    ensures text { IfOk result (λ changed. TakesLower name.now text.now changed.items) }
    ensures table { IfOk result (λ changed. DropsKey name.now text.now changed.items) }
    ensures fault { IfErr result (RefusesDrop text.now name.now) }
{
    let Some(keys) = read_keys(alloc, text, name)? else {
        return Err(ChangeFault::NoLine);
    };
    if keys.second.is_none() {
        return Err(ChangeFault::OneLine);
    }
    Ok(take_lower(alloc, text, name)?)
}

/// The text with a line below that of a name which has one: the first step of a change of keys that
/// several daemons make one after the other.
///
/// The name's old key mints still, and the new one is verified. Takes the time and the memory of
/// four readings.
pub fn add_below(
    alloc: Global,
    text: &[u8],
    name: &[u8],
    line: &[u8],
) -> Result<Vec<u8>, ChangeFault>
    requires { (secret : List ℕ) × IsKeyLine name.now secret line.now }
    ensures text { IfOk result (λ changed. (between : List ℕ)
        × PutsAbove name.now line.now text.now between
        × RaisesLower name.now between changed.items) }
    ensures table { IfOk result (λ changed. (secret : List ℕ)
        → IsKeyLine name.now secret line.now
        → AddsLower name.now (root_of secret) text.now changed.items) }
    ensures fault { IfErr result (RefusesAbove text.now name.now) }
{
    let between = add_above(alloc, text, name, line)?;
    Ok(raise_line(alloc, between.as_slice(), name)?)
}

/// The text with the lower line of a name that has two above the other one: the second step of a
/// change of keys that several daemons make one after the other.
///
/// The key of that line mints from then on, and the other one is still verified. Takes the time and
/// the memory of two readings.
pub fn raise_lower(alloc: Global, text: &[u8], name: &[u8]) -> Result<Vec<u8>, ChangeFault>
    ensures text { IfOk result (λ changed. RaisesLower name.now text.now changed.items) }
    ensures table { IfOk result (λ changed. SwapsKeys name.now text.now changed.items) }
    ensures fault { IfErr result (RefusesDrop text.now name.now) }
{
    let Some(keys) = read_keys(alloc, text, name)? else {
        return Err(ChangeFault::NoLine);
    };
    if keys.second.is_none() {
        return Err(ChangeFault::OneLine);
    }
    Ok(raise_line(alloc, text, name)?)
}

/// The text without the upper line of a name that has two, in whose place the lower one stands.
///
/// The key of the lower line mints from then on, and what was minted under the other one is
/// refused. Takes the time and the memory of three readings.
pub fn drop_upper(alloc: Global, text: &[u8], name: &[u8]) -> Result<Vec<u8>, ChangeFault>
    ensures text { IfOk result (λ changed. (between : List ℕ)
        × RaisesLower name.now text.now between × TakesLower name.now between changed.items) }
    ensures table { IfOk result (λ changed. DropsFirst name.now text.now changed.items) }
    ensures fault { IfErr result (RefusesDrop text.now name.now) }
{
    let between = raise_lower(alloc, text, name)?;
    Ok(take_lower(alloc, between.as_slice(), name)?)
}

/// The keys that the file gives a name.
fn read_keys(alloc: Global, text: &[u8], name: &[u8]) -> Result<Option<Keys>, KeyFault>
    ensures keys { IfOk result (HasKeys text.now name.now) }
    ensures fault { IfErr result (IsFileFault text.now) }
{
    let table = KeyMap::read(alloc, text)?;
    Ok(table.find(name).copied())
}

/// The text with a line above the first of a name.
fn put_above(alloc: Global, text: &[u8], name: &[u8], line: &[u8]) -> Result<Vec<u8>, AllocError>
    requires { HasOne text.now name.now }
    ensures text { IfOk result (λ changed.
        PutsAbove name.now line.now text.now changed.items) }
    ensures table { IfOk result (λ changed. (secret : List ℕ)
        → IsKeyLine name.now secret line.now
        → AddsKey name.now (root_of secret) text.now changed.items) }
{
    let Some((start, _)) = find_line(text, name, 0) else {
        unreachable!("the name has a line")
    };
    join(alloc, &text[..start], line, &text[start..])
}

/// The text without the second line of a name.
fn take_lower(alloc: Global, text: &[u8], name: &[u8]) -> Result<Vec<u8>, AllocError>
    requires { HasTwo text.now name.now }
    ensures text { IfOk result (λ changed. TakesLower name.now text.now changed.items) }
    ensures table { IfOk result (λ changed. DropsKey name.now text.now changed.items) }
{
    let Some((start, end)) = find_line(text, name, 1) else {
        unreachable!("the name has two lines")
    };
    join(alloc, &text[..start], b"", &text[end..])
}

/// The text with the second line of a name above its first.
fn raise_line(alloc: Global, text: &[u8], name: &[u8]) -> Result<Vec<u8>, AllocError>
    requires { HasTwo text.now name.now }
    ensures text { IfOk result (λ changed. RaisesLower name.now text.now changed.items) }
    ensures table { IfOk result (λ changed. SwapsKeys name.now text.now changed.items) }
{
    let line = copy_lower(alloc, text, name)?;
    let rest = take_lower(alloc, text, name)?;
    put_above(alloc, rest.as_slice(), name, line.as_slice())
}

/// The second line of a name, with its line feed, which at the end of a file it may lack.
fn copy_lower(alloc: Global, text: &[u8], name: &[u8]) -> Result<Vec<u8>, AllocError>
    requires { HasTwo text.now name.now }
    ensures { IfOk result (λ line. IsLower name.now text.now line.items) }
{
    let Some((start, _)) = find_line(text, name, 1) else {
        unreachable!("the name has two lines")
    };
    join(alloc, first_line(&text[start..]), b"\n", b"")
}

/// The first line of a text, without its line feed.
fn first_line(text: &[u8]) -> &[u8]
    ensures { (others : List (List ℕ)) × (lines_of text.now ≡ result.now ∷ others) }
{
    match find_line_feed(text) {
        Some(place) => &text[..place],
        None => text,
    }
}

/// Three texts in one.
fn join(alloc: Global, front: &[u8], middle: &[u8], back: &[u8]) -> Result<Vec<u8>, AllocError>
    ensures { IfOk result (λ whole. whole.items ≡ front.now ++ middle.now ++ back.now) }
{
    let mut whole = Vec::from_slice(alloc, front)?;
    whole.extend_from_slice(middle)?;
    whole.extend_from_slice(back)?;
    Ok(whole)
}

/// Where a name's line stands that has so many of its lines above it: from its first byte to the
/// one behind its line feed.
fn find_line(text: &[u8], name: &[u8], above: usize) -> Option<(usize, usize)>
    ensures { MatchOption result (count_by (is_line_of name.now) (lines_of text.now) ≤ above)
        (λ place. IsFound name.now text.now above place.0 place.1) }
{
    let mut left = above;
    let mut start = 0;
    while let Some(length) = find_line_feed(&text[start..]) {
        let end = start + length + 1;
        if is_line_of(&text[start..start + length], name) {
            if left == 0 {
                return Some((start, end));
            }
            left -= 1;
        }
        start = end;
    }
    if left == 0 && is_line_of(&text[start..], name) {
        return Some((start, text.len()));
    }
    None
}

/// The place of the first line feed.
fn find_line_feed(text: &[u8]) -> Option<usize>
    ensures feed { MatchOption result (IsUnbroken text.now) (λ place.
        IsUnbroken (take place text.now)
        × (text.now ≡ take place text.now ++ 10 ∷ drop (place + 1) text.now)) }
    ensures within { IfSome result (λ place. place < length text.now) }
{
    text.iter().position(|byte| *byte == b'\n')
}
