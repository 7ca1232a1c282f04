//! What is told of caveats that can hardly hold, as JSON.

ghost use Rattle.std.specs.Prelude.{◌≡◌, ◌++◌, ◌<◌, length, bytes_eq, IfOk, OnOk};
ghost use Rattle.std.specs.List.{list_any};
ghost use Rattle.mac_token.specs.RawToken.{byte_lists};
ghost use Rattle.mac_calls.specs.Warned.{warning_at, warning_json, warning_of, warnings_member};
ghost use Rattle.mac_calls.specs.Warned.{all_warnings};

use mac_decide::{Doubt, find_doubt};
use std::alloc::{AllocError, Global};

/// What is told of each caveat that can hardly hold at a moment, behind a comma each.
pub(crate) fn list_warnings(
    alloc: Global,
    caveats: &[Vec<u8>],
    moment: u64,
) -> Result<Vec<u8>, AllocError>
    ensures { IfOk result (λ list. list.items
        ≡ all_warnings (byte_lists caveats.now) moment) }
{
    let mut list = Vec::new(alloc);
    for place in 0..caveats.len() {
        append_warning(alloc, caveats, place, moment, &mut list)?;
    }
    Ok(list)
}

/// Appends what is told of the caveat at a place, if there is a doubt about it.
fn append_warning(
    alloc: Global,
    caveats: &[Vec<u8>],
    place: usize,
    moment: u64,
    list: &mut Vec<u8>,
) -> Result<(), AllocError>
    requires { place < length caveats.now }
    ensures { OnOk result (list.new.items
        ≡ list.old.items ++ warning_at (byte_lists caveats.now) moment place) }
{
    let caveat = caveats[place].as_slice();
    let is_repeated = is_among(caveat, &caveats[..place]);
    append_doubt(alloc, find_doubt(caveat, is_repeated, moment), place, list)
}

/// Whether one of these is the caveat.
fn is_among(caveat: &[u8], caveats: &[Vec<u8>]) -> bool
    ensures { result ≡ list_any (λ other. bytes_eq caveat.now other.items) caveats.now }
{
    caveats.iter().any(|other| caveat == other.as_slice())
}

/// Appends a doubt about the caveat at a place, if there is one.
fn append_doubt(
    alloc: Global,
    doubt: Option<Doubt>,
    place: usize,
    list: &mut Vec<u8>,
) -> Result<(), AllocError>
    ensures { OnOk result (list.new.items ≡ list.old.items ++ warning_of doubt place) }
{
    match doubt {
        Some(doubt) => append_item(alloc, doubt, place, list),
        None => Ok(()),
    }
}

/// Appends a doubt about the caveat at a place.
fn append_item(
    alloc: Global,
    doubt: Doubt,
    place: usize,
    list: &mut Vec<u8>,
) -> Result<(), AllocError>
    ensures { OnOk result (list.new.items ≡ list.old.items ++ warning_json doubt place) }
{
    let item = warning_json(alloc, doubt, place)?;
    list.extend_from_slice(&item)
}

/// A doubt about the caveat at a place.
fn warning_json(alloc: Global, doubt: Doubt, place: usize) -> Result<Vec<u8>, AllocError>
    ensures { IfOk result (λ json. json.items ≡ warning_json doubt place) }
{
    let text = format!(in alloc;
        ",{{\"caveat\":{},\"reason\":\"a caveat {}\"}}",
        place,
        doubt.words()
    )?;
    Ok(text.into_bytes())
}

/// Appends the member that has these, if there are any.
pub(crate) fn append_warnings(list: &[u8], json: &mut Vec<u8>) -> Result<(), AllocError>
    ensures { OnOk result (json.new.items ≡ json.old.items ++ warnings_member list.now) }
{
    match list {
        [] => Ok(()),
        [_, items @ ..] => {
            json.extend_from_slice(b",\"warnings\":[")?;
            json.extend_from_slice(items)?;
            json.extend_from_slice(b"]")
        }
    }
}
