//! The clock by which connections are timed.

use std::time::{Clock, Duration};

/// The microseconds of a clock that begins anywhere.
pub fn microseconds<R: Clock>(rt: &R) -> u64 {
    match rt.monotonic() {
        Ok(time) => microseconds_of(time),
        Err(_) => 0,
    }
}

/// How many microseconds a time has.
pub fn microseconds_of(time: Duration) -> u64 {
    time.as_secs()
        .saturating_mul(1_000_000)
        .saturating_add(u64::from(time.subsec_micros()))
}
