//! What clocks show, in milliseconds.

use std::time::{Clock, Duration, SystemTime};

/// Milliseconds from 1970, or 0 where the clock can't be read.
pub fn millis_now<R: Clock>(rt: &R) -> u64 {
    let Ok(now) = SystemTime::now(rt) else {
        return 0;
    };
    match now.duration_since(SystemTime::UNIX_EPOCH) {
        Ok(since) => millis_of(since),
        Err(_) => 0,
    }
}

/// The whole milliseconds of a time.
pub fn millis_of(time: Duration) -> u64 {
    time.as_secs()
        .saturating_mul(1_000)
        .saturating_add(u64::from(time.subsec_millis()))
}
