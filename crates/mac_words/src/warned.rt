//! Warnings of caveats that can hardly hold.

ghost use Rattle.std.specs.Prelude.{◌≡◌, ◌++◌, ◌<◌, length, IfOk, OnOk};
ghost use Rattle.std.specs.List.{list_any};
ghost use Rattle.std.specs.Prelude.{bytes_eq, string_bytes};
ghost use Rattle.mac_words.specs.Payload.{texts_of};
ghost use Rattle.mac_words.specs.Warned.{no_bound_words, warning_at, warning_line, warning_of};
ghost use Rattle.mac_words.specs.Warned.{warnings_of};

use crate::escaped::append_escaped;
use mac_decide::{Doubt, begins_as_bound, find_doubt};
use mac_wire::NoMemory;
use std::alloc::Global;

/// A line for each caveat that can hardly hold at a moment, in seconds since 1970: why, and the
/// caveat. Each is looked up among those before it.
pub fn warnings(alloc: Global, caveats: &[String], moment: u64) -> Result<Vec<u8>, NoMemory>
    ensures { IfOk result (λ text. text.items ≡ warnings_of (texts_of caveats.now) moment) }
{
    let mut text = Vec::new(alloc);
    for place in 0..caveats.len() {
        append_warning(caveats, place, moment, &mut text)?;
    }
    Ok(text)
}

/// Appends the warning of the caveat at a place, if there is a doubt about it.
fn append_warning(
    caveats: &[String],
    place: usize,
    moment: u64,
    out: &mut Vec<u8>,
) -> Result<(), NoMemory>
    requires { place < length caveats.now }
    ensures { OnOk result (out.new.items
        ≡ out.old.items ++ warning_at (texts_of caveats.now) moment place) }
{
    let caveat = caveats[place].as_bytes();
    let is_repeated = is_among(caveat, &caveats[..place]);
    append_doubt(find_doubt(caveat, is_repeated, moment), caveat, out)
}

/// Whether one of these texts is the caveat.
fn is_among(caveat: &[u8], texts: &[String]) -> bool
    ensures { result ≡ list_any (λ text. bytes_eq caveat.now (string_bytes text)) texts.now }
{
    texts.iter().any(|text| caveat == text.as_bytes())
}

/// Appends the line of a doubt, if there is one.
fn append_doubt(doubt: Option<Doubt>, caveat: &[u8], out: &mut Vec<u8>) -> Result<(), NoMemory>
    ensures { OnOk result (out.new.items ≡ out.old.items ++ warning_of doubt caveat.now) }
{
    match doubt {
        Some(doubt) => append_line(doubt, caveat, out),
        None => Ok(()),
    }
}

/// Appends the line that warns of a caveat.
#[tactic(auto, unfolding(crate::specs::Warned::warning_line))]
fn append_line(doubt: Doubt, caveat: &[u8], out: &mut Vec<u8>) -> Result<(), NoMemory>
    ensures { OnOk result (out.new.items ≡ out.old.items ++ warning_line doubt caveat.now) }
{
    out.extend_from_slice(b"warning: a caveat ")?;
    out.extend_from_slice(doubt.words().as_bytes())?;
    out.extend_from_slice(b": ")?;
    append_escaped(caveat, out)?;
    out.extend_from_slice(b"\n")?;
    Ok(())
}

/// Appends what is told behind a caveat that is no bound of time.
#[tactic(auto, unfolding(crate::specs::Warned::no_bound_words))]
pub(crate) fn append_no_bound(caveat: &[u8], out: &mut Vec<u8>) -> Result<(), NoMemory>
    ensures { OnOk result (out.new.items ≡ out.old.items ++ no_bound_words caveat.now) }
{
    if begins_as_bound(caveat) {
        out.extend_from_slice(b" (is no bound of time, and holds only as a fact)")
    } else {
        Ok(())
    }
}
