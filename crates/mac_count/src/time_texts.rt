//! How long requests took, as it is written.

ghost use Rattle.std.specs.Prelude.{◌≡◌, ◌++◌, OnOk};
ghost use Rattle.std.specs.List.{flat_map};
ghost use Rattle.mac_count.specs.TimeTexts.{all_bounds, all_line, bound_line, count_text};
ghost use Rattle.mac_count.specs.TimeTexts.{seconds_text, sum_line, time_text, timed_line};
ghost use Rattle.mac_count.specs.TimeTexts.{times_lines, times_text};

use crate::NoMemory;
use crate::snapshot::Snapshot;
use crate::texts::append_value;
use crate::times::BOUND_MICROS;
use std::alloc::Global;

/// How many microseconds a second has.
const SECOND: u64 = 1_000_000;

/// Appends a line for each bound of time, and one for all that requests took.
pub(crate) fn append_times_lines(
    alloc: Global,
    snapshot: &Snapshot,
    out: &mut Vec<u8>,
) -> Result<(), NoMemory>
    ensures { OnOk result (out.new.items ≡ out.old.items ++ times_lines snapshot.now) }
{
    append_all_bounds(alloc, b"requests_within ", b" ", snapshot, out)?;
    append_sum(alloc, b"requests_seconds ", snapshot, out)
}

/// Appends Prometheus's histogram of them.
pub(crate) fn append_times(
    alloc: Global,
    snapshot: &Snapshot,
    out: &mut Vec<u8>,
) -> Result<(), NoMemory>
    ensures { OnOk result (out.new.items ≡ out.old.items ++ times_text snapshot.now) }
{
    out.extend_from_slice(b"# TYPE macaroond_request_seconds histogram\n")?;
    let front = b"macaroond_request_seconds_bucket{le=\"";
    append_all_bounds(alloc, front, b"\"} ", snapshot, out)?;
    append_all(alloc, snapshot, out)?;
    append_sum(alloc, b"macaroond_request_seconds_sum ", snapshot, out)?;
    append_timed(alloc, snapshot, out)
}

/// Appends a line for each bound of time, which stands between these words.
#[tactic(auto, unfolding(crate::specs::TimeTexts::all_bounds))]
fn append_all_bounds(
    alloc: Global,
    front: &[u8],
    middle: &[u8],
    snapshot: &Snapshot,
    out: &mut Vec<u8>,
) -> Result<(), NoMemory>
    ensures { OnOk result
        (out.new.items ≡ out.old.items ++ all_bounds front.now middle.now snapshot.now) }
{
    append_bounds(alloc, front, middle, snapshot, &BOUND_MICROS, out)
}

/// The same of these bounds.
fn append_bounds(
    alloc: Global,
    front: &[u8],
    middle: &[u8],
    snapshot: &Snapshot,
    bounds: &[u64],
    out: &mut Vec<u8>,
) -> Result<(), NoMemory>
    ensures { OnOk result
        (out.new.items ≡ out.old.items
        ++ flat_map (bound_line front.now middle.now snapshot.now) bounds.now) }
{
    for bound in bounds {
        append_bound(alloc, front, middle, snapshot, *bound, out)?;
    }
    Ok(())
}

/// Appends how many requests took no longer than so many microseconds, which stand between these
/// words.
#[tactic(auto, unfolding(crate::specs::TimeTexts::bound_line))]
fn append_bound(
    alloc: Global,
    front: &[u8],
    middle: &[u8],
    snapshot: &Snapshot,
    bound: u64,
    out: &mut Vec<u8>,
) -> Result<(), NoMemory>
    ensures { OnOk result
        (out.new.items ≡ out.old.items ++ bound_line front.now middle.now snapshot.now bound) }
{
    append_time(alloc, front, bound, out)?;
    append_count(alloc, middle, snapshot.within(bound), out)
}

/// Appends what all requests took, with these words in front.
#[tactic(auto, unfolding(crate::specs::TimeTexts::sum_line))]
fn append_sum(
    alloc: Global,
    front: &[u8],
    snapshot: &Snapshot,
    out: &mut Vec<u8>,
) -> Result<(), NoMemory>
    ensures { OnOk result (out.new.items ≡ out.old.items ++ sum_line front.now snapshot.now) }
{
    append_time(alloc, front, snapshot.micros, out)?;
    out.extend_from_slice(b"\n")
}

/// Appends how many there were, as the bucket without a bound.
#[tactic(auto, unfolding(crate::specs::TimeTexts::all_line))]
fn append_all(alloc: Global, snapshot: &Snapshot, out: &mut Vec<u8>) -> Result<(), NoMemory>
    ensures { OnOk result (out.new.items ≡ out.old.items ++ all_line snapshot.now) }
{
    let front = b"macaroond_request_seconds_bucket{le=\"+Inf\"} ";
    append_count(alloc, front, snapshot.timed(), out)
}

/// Appends how many there were, as a histogram ends.
#[tactic(auto, unfolding(crate::specs::TimeTexts::timed_line))]
fn append_timed(alloc: Global, snapshot: &Snapshot, out: &mut Vec<u8>) -> Result<(), NoMemory>
    ensures { OnOk result (out.new.items ≡ out.old.items ++ timed_line snapshot.now) }
{
    append_count(
        alloc,
        b"macaroond_request_seconds_count ",
        snapshot.timed(),
        out,
    )
}

/// Appends a number, with these words in front.
fn append_count(alloc: Global, front: &[u8], count: u64, out: &mut Vec<u8>) -> Result<(), NoMemory>
    ensures { OnOk result (out.new.items ≡ out.old.items ++ count_text front.now count) }
{
    out.extend_from_slice(front)?;
    append_value(alloc, count, out)
}

/// Appends so many microseconds in seconds, with these words in front.
fn append_time(alloc: Global, front: &[u8], micros: u64, out: &mut Vec<u8>) -> Result<(), NoMemory>
    ensures { OnOk result (out.new.items ≡ out.old.items ++ time_text front.now micros) }
{
    out.extend_from_slice(front)?;
    append_seconds(alloc, micros, out)
}

/// Appends so many microseconds, in seconds with six digits behind the point.
#[tactic(auto, unfolding(crate::specs::TimeTexts::seconds_text))]
fn append_seconds(alloc: Global, micros: u64, out: &mut Vec<u8>) -> Result<(), NoMemory>
    ensures { OnOk result (out.new.items ≡ out.old.items ++ seconds_text micros) }
{
    let seconds = (micros / SECOND).to_string(alloc)?;
    out.extend_from_slice(seconds.as_bytes())?;
    out.extend_from_slice(b".")?;
    let digits = (SECOND + micros % SECOND).to_string(alloc)?;
    out.extend_from_slice(&digits.as_bytes()[1..])
}
