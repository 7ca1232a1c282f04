//! What the counters show at a moment.

ghost use Rattle.std.specs.Prelude.{◌≡◌, min, sum};
ghost use Rattle.mac_count.specs.Texts.{number_value, request_value};
ghost use Rattle.mac_count.specs.Times.{timed, within};

use crate::number::{AnsweredRequest, NUMBERS, Number, REQUESTS};
use crate::times::{BUCKETS, bucket_of};

/// A number for each [`Number`] and one for each [`AnsweredRequest`], at its place.
#[derive(Clone, Copy, Debug, PartialEq, Eq)]
pub struct Snapshot {
    /// The numbers that stand alone.
    pub numbers: [u64; NUMBERS],
    /// How many requests there were of each kind.
    pub requests: [u64; REQUESTS],
    /// How many requests took as long as each bucket says.
    pub times: [u64; BUCKETS],
    /// How many microseconds all of them took together.
    pub micros: u64,
}

impl Snapshot {
    /// The value of a number.
    pub fn number(&self, number: Number) -> u64
        ensures { result ≡ number_value self.now number }
    {
        self.numbers[number.place()]
    }

    /// How many requests there were of a kind.
    pub fn requests(&self, request: AnsweredRequest) -> u64
        ensures { result ≡ request_value self.now request }
    {
        self.requests[request.place()]
    }

    /// How many requests took no longer than so many microseconds, which are a bound of time.
    #[tactic(auto, unfolding(crate::specs::Times::within))]
    pub fn within(&self, micros: u64) -> u64
        ensures { result ≡ within self.now micros }
    {
        sum_of(&self.times[..bucket_of(micros) + 1])
    }

    /// How many requests there were, by the time that each took.
    pub fn timed(&self) -> u64
        ensures { result ≡ timed self.now }
    {
        sum_of(&self.times)
    }
}

/// All of these together.
fn sum_of(counts: &[u64]) -> u64
    ensures { result ≡ min (sum counts.now) 18_446_744_073_709_551_615 }
{
    let mut total = 0u64;
    for count in counts {
        total = total.saturating_add(*count);
    }
    total
}
