//! The lines of a token's caveats.

ghost use Rattle.std.specs.Prelude.{◌≡◌, ◌++◌, List, ℕ, length, OnOk, None, Some};
ghost use Rattle.std.specs.Fmt.{signed_decimal};
ghost use Rattle.mac_words.specs.Inspected.{AreBareWords, AreBoundWords, AreLines, AreWords, IsCaveatLine};
ghost use Rattle.mac_words.specs.Inspected.{caveat_front, limit_words, second_words, since_words};
ghost use Rattle.mac_words.specs.Inspected.{place_words, third_party};
ghost use Rattle.mac_token.specs.RawToken.{bytes_of, text_of};

use crate::escaped::append_escaped;
use crate::warned::append_no_bound;
use mac_decide::{time_limit, time_since};
use mac_token::RawCaveat;
use mac_wire::NoMemory;
use std::alloc::Global;

/// Appends a line for each caveat.
pub(crate) fn append_caveats(
    alloc: Global,
    caveats: &[RawCaveat],
    out: &mut Vec<u8>,
) -> Result<(), NoMemory>
    ensures { OnOk result ((lines : List ℕ) × AreLines (length caveats.now) caveats.now lines
        × (out.new.items ≡ out.old.items ++ lines)) }
{
    let mut place = 0;
    for caveat in caveats {
        append_line(alloc, place, caveat, out)?;
        place += 1;
    }
    Ok(())
}

/// Appends the line of the caveat at a place.
fn append_line(
    alloc: Global,
    place: usize,
    caveat: &RawCaveat,
    out: &mut Vec<u8>,
) -> Result<(), NoMemory>
    ensures { OnOk result ((last : List ℕ) × IsCaveatLine place caveat.now last
        × (out.new.items ≡ out.old.items ++ last)) }
{
    append_front(alloc, place, out)?;
    append_words(alloc, caveat, out)?;
    out.extend_from_slice(b"\n")?;
    Ok(())
}

/// Appends how the line begins: the place, counted from 0.
#[tactic(auto, unfolding(crate::specs::Inspected::caveat_front))]
pub(crate) fn append_front(alloc: Global, place: usize, out: &mut Vec<u8>) -> Result<(), NoMemory>
    ensures { OnOk result (out.new.items ≡ out.old.items ++ caveat_front place) }
{
    let number = format!(in alloc; "{place}")?;
    out.extend_from_slice(b"caveat ")?;
    out.extend_from_slice(number.as_bytes())?;
    out.extend_from_slice(b": ")?;
    Ok(())
}

/// Appends the words of a caveat, in front of the line's end.
fn append_words(alloc: Global, caveat: &RawCaveat, out: &mut Vec<u8>) -> Result<(), NoMemory>
    ensures { OnOk result ((words : List ℕ)
        × AreWords caveat.now.vid caveat.now.location caveat.now.id words
        × (out.new.items ≡ out.old.items ++ words)) }
{
    append_party(
        alloc,
        &caveat.vid,
        &caveat.location,
        caveat.id.as_slice(),
        out,
    )
}

/// Appends the words of a caveat, which is third-party where it has a verifier's id.
fn append_party(
    alloc: Global,
    vid: &Option<Vec<u8>>,
    location: &Option<String>,
    id: &[u8],
    out: &mut Vec<u8>,
) -> Result<(), NoMemory>
    ensures { OnOk result ((words : List ℕ)
        × AreWords (bytes_of vid.now) (text_of location.now) id.now words
        × (out.new.items ≡ out.old.items ++ words)) }
{
    match vid {
        Some(_) => {
            append_third_party(out)?;
            append_place(location, out)?;
            append_escaped(id, out)?;
            Ok(())
        }
        None => append_first_party(alloc, location, id, out),
    }
}

/// Appends the words of a first-party caveat, with its location if it has one.
fn append_first_party(
    alloc: Global,
    location: &Option<String>,
    id: &[u8],
    out: &mut Vec<u8>,
) -> Result<(), NoMemory>
    ensures { OnOk result ((words : List ℕ) × AreWords None (text_of location.now) id.now words
        × (out.new.items ≡ out.old.items ++ words)) }
{
    match location {
        Some(location) => {
            append_at(location.as_str(), out)?;
            append_escaped(id, out)?;
            Ok(())
        }
        None => append_bare(alloc, id, out),
    }
}

/// Appends that a caveat is third-party.
#[tactic(auto, unfolding(crate::specs::Inspected::third_party))]
fn append_third_party(out: &mut Vec<u8>) -> Result<(), NoMemory>
    ensures { OnOk result (out.new.items ≡ out.old.items ++ third_party) }
{
    out.extend_from_slice(b"third-party ")?;
    Ok(())
}

/// Appends a location, if there is one.
#[tactic(auto, unfolding(crate::specs::Inspected::place_words))]
fn append_place(place: &Option<String>, out: &mut Vec<u8>) -> Result<(), NoMemory>
    ensures { OnOk result (out.new.items ≡ out.old.items ++ place_words (text_of place.now)) }
{
    match place {
        Some(location) => append_at(location.as_str(), out),
        None => Ok(()),
    }
}

/// Appends a location.
#[tactic(auto, unfolding(crate::specs::Inspected::place_words))]
fn append_at(location: &str, out: &mut Vec<u8>) -> Result<(), NoMemory>
    ensures { OnOk result (out.new.items ≡ out.old.items ++ place_words (Some location.now)) }
{
    out.extend_from_slice(b"at ")?;
    append_escaped(location.as_bytes(), out)?;
    out.extend_from_slice(b": ")?;
    Ok(())
}

/// Appends the words of a first-party caveat without a location: it may be a bound of time.
fn append_bare(alloc: Global, id: &[u8], out: &mut Vec<u8>) -> Result<(), NoMemory>
    ensures { OnOk result ((words : List ℕ) × AreBareWords id.now words
        × (out.new.items ≡ out.old.items ++ words)) }
{
    append_escaped(id, out)?;
    append_bound(alloc, id, out)?;
    Ok(())
}

/// Appends what a caveat means as a bound of time.
fn append_bound(alloc: Global, id: &[u8], out: &mut Vec<u8>) -> Result<(), NoMemory>
    ensures { OnOk result ((words : List ℕ) × AreBoundWords id.now words
        × (out.new.items ≡ out.old.items ++ words)) }
{
    match time_limit(id) {
        Some(second) => {
            append_limit(alloc, second, out)?;
            Ok(())
        }
        None => match time_since(id) {
            Some(second) => {
                append_since(alloc, second, out)?;
                Ok(())
            }
            None => {
                append_no_bound(id, out)?;
                Ok(())
            }
        },
    }
}

/// Appends what a time limit means.
#[tactic(auto, unfolding(crate::specs::Inspected::limit_words))]
fn append_limit(alloc: Global, second: i64, out: &mut Vec<u8>) -> Result<(), NoMemory>
    ensures { OnOk result (out.new.items ≡ out.old.items ++ limit_words second) }
{
    append_second(alloc, b" (holds before second ", second, out)
}

/// Appends what a lower bound of time means.
#[tactic(auto, unfolding(crate::specs::Inspected::since_words))]
fn append_since(alloc: Global, second: i64, out: &mut Vec<u8>) -> Result<(), NoMemory>
    ensures { OnOk result (out.new.items ≡ out.old.items ++ since_words second) }
{
    append_second(alloc, b" (holds from second ", second, out)
}

/// Appends words with a second in them.
fn append_second(
    alloc: Global,
    front: &[u8],
    second: i64,
    out: &mut Vec<u8>,
) -> Result<(), NoMemory>
    ensures { OnOk result (out.new.items ≡ out.old.items ++ second_words front.now second) }
{
    out.extend_from_slice(front)?;
    append_signed(alloc, second, out)?;
    out.extend_from_slice(b" since 1970)")?;
    Ok(())
}

/// Appends a number in decimal.
fn append_signed(alloc: Global, number: i64, out: &mut Vec<u8>) -> Result<(), NoMemory>
    ensures { OnOk result (out.new.items ≡ out.old.items ++ signed_decimal number) }
{
    let digits = format!(in alloc; "{number}")?;
    out.extend_from_slice(digits.as_bytes())
}
