//! Counts of requests that one thread keeps to itself.

ghost use Rattle.std.specs.Prelude.{◌≡◌};
ghost use Rattle.mac_count.specs.RequestCounts.{no_counts, with_counted};

use crate::number::{AnsweredRequest, REQUESTS};

/// How many requests were answered since that was last taken, each kind at its place.
#[derive(Clone, Copy, Debug, PartialEq, Eq)]
pub struct RequestCounts {
    counts: [u64; REQUESTS],
}

impl RequestCounts {
    /// None yet.
    pub fn new() -> RequestCounts
        ensures { result.counts ≡ no_counts }
    {
        RequestCounts {
            counts: [0; REQUESTS],
        }
    }

    /// Counts a request.
    pub fn count(&mut self, request: AnsweredRequest)
        ensures { self.new.counts ≡ with_counted self.old.counts request }
    {
        let place = request.place();
        self.counts[place] = self.counts[place].saturating_add(1);
    }

    /// The counts since the last call, and from now on there are none.
    pub fn take(&mut self) -> [u64; REQUESTS]
        ensures taken { result ≡ self.old.counts }
        ensures none_left { self.new.counts ≡ no_counts }
    {
        let counts = self.counts;
        self.counts = [0; REQUESTS];
        counts
    }
}
