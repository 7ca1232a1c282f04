//! Moments in UTC, as RFC 3339 writes them.

ghost use Rattle.std.specs.Prelude.{◌≡◌, ◌+◌, ◌*◌, ◌≤◌, false, length, min, pos, OnOk};
ghost use Rattle.mac_log.specs.Moment.{AddsMoment};

use crate::NoMemory;
use jiff::Timestamp;
use jiff::fmt::temporal::DateTimePrinter;

/// The last moment that a line tells, in milliseconds from 1970: the calendar of `jiff` ends then.
pub const MOMENT_MAX: u64 = 253_402_207_200_999;

/// The most bytes of a moment.
pub const MOMENT_SIZE_MAX: usize = 27;

/// How many places of a second are told.
const PLACES: u8 = 3;

/// Appends the moment that is so many milliseconds from 1970: `2026-01-31T12:00:00.000Z`.
pub fn append_moment(millis: u64, out: &mut Vec<u8>) -> Result<(), NoMemory>
    ensures text { OnOk result (AddsMoment millis out.old.items out.new.items) }
    ensures short { OnOk result (length out.new.items ≤ length out.old.items + MOMENT_SIZE_MAX) }
{
    let instant = instant_of(millis).to_plain();
    let printer = printer();
    let text = printer.timestamp_text(instant);
    out.extend_from_slice(text.as_bytes())
}

/// The moment that is so many milliseconds from 1970, or the last that is told.
fn instant_of(millis: u64) -> Timestamp
    ensures { result.nanosecond ≡ pos (min millis MOMENT_MAX * 1_000_000) }
{
    Timestamp::from_millisecond(millis.min(MOMENT_MAX) as i64).unwrap()
}

/// What writes a moment.
fn printer() -> DateTimePrinter
    ensures case { result.lowercase ≡ false }
    ensures separator { result.separator ≡ 84 }
    ensures places { result.precision ≡ Some 3 }
{
    DateTimePrinter::new().precision(Some(PLACES))
}
