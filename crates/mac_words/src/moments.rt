//! Moments, as people write them.

ghost use Rattle.std.specs.Prelude.{◌≡◌, ℕ, ℤ, pos, ◌↔◌, IfOk};
ghost use Rattle.mac_words.specs.Moment.{IsMoment, IsSeconds, IsTime};

use mac_decide::time_limit;
use mac_wire::NoMemory;
use std::alloc::Global;

/// The seconds since 1970 that a text names: `2026-01-31T12:00:00Z`, where `:00` and `Z` may be
/// left out, or a number of seconds.
pub fn moment(alloc: Global, text: &str) -> Result<Option<u64>, NoMemory>
    ensures { IfOk result (λ found. (n : ℕ) → (found ≡ Some n) ↔ IsMoment text.now n) }
{
    match time(alloc, text)? {
        Some(second) => Ok(from_1970(second)),
        None => Ok(seconds(text)),
    }
}

/// The second of a day and a time as a time limit has them.
fn time(alloc: Global, text: &str) -> Result<Option<i64>, NoMemory>
    ensures { IfOk result (λ found. (v : ℤ) → (found ≡ Some v) ↔ IsTime text.now v) }
{
    let mut limit = Vec::from_slice(alloc, b"time < ")?;
    limit.extend_from_slice(text.as_bytes())?;
    Ok(time_limit(limit.as_slice()))
}

/// The same second as a count from 1970, where it isn't before.
fn from_1970(second: i64) -> Option<u64>
    ensures { (n : ℕ) → (result ≡ Some n) ↔ (second ≡ pos n) }
{
    if second < 0 {
        return None;
    }
    Some(second as u64)
}

/// The seconds that a decimal number counts.
fn seconds(text: &str) -> Option<u64>
    ensures { (n : ℕ) → (result ≡ Some n) ↔ IsSeconds text.now n }
{
    text.parse::<u64>().ok()
}
