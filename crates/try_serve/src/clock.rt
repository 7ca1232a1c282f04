//! A clock that stands still.

use mac_board::Moments;
use mac_queue::History;

/// The moment of every request that names none: 2023-11-14T22:13:20Z.
pub(crate) const MOMENT: u64 = 1_700_000_000;

/// A clock that stands still.
#[derive(Drop)]
pub(crate) struct FixedClock {
    told: History<Option<u64>>,
}

impl FixedClock {
    pub(crate) fn new() -> FixedClock {
        FixedClock {
            told: History::new(),
        }
    }
}

impl Moments for FixedClock {
    ghost told = { λ clock. clock.told };

    fn tell(&mut self) -> Option<u64> {
        let moment = Some(MOMENT);
        self.told.add(&moment);
        moment
    }
}
