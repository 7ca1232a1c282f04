//! How busy loops are.

use std::alloc::{AllocError, Global};
use std::sync::atomic::AtomicU64;
use std::sync::atomic::Ordering::SeqCst;

/// How many microseconds a look at all loops spans at least.
const SPAN: u64 = 10_000;

/// The microseconds that a loop has worked.
#[derive(Drop)]
pub struct Meter {
    worked: AtomicU64,
}

impl Meter {
    pub fn new() -> Meter {
        Meter {
            worked: AtomicU64::new(0),
        }
    }

    /// Adds what a turn took.
    pub fn add(&self, microseconds: u64) {
        self.worked.fetch_add(microseconds, SeqCst);
    }

    pub fn worked(&self) -> u64 {
        self.worked.load(SeqCst)
    }
}

/// What share of a time each loop worked, looked at again and again.
#[derive(Drop)]
pub struct Shares {
    since: u64,
    worked: Vec<u64>,
    permille: Vec<u64>,
}

impl Shares {
    /// A first look at so many loops.
    pub fn new(alloc: Global, count: usize) -> Result<Shares, AllocError> {
        let mut worked = Vec::new(alloc);
        worked.resize(count, 0)?;
        let mut permille = Vec::new(alloc);
        permille.resize(count, 0)?;
        Ok(Shares {
            since: 0,
            worked,
            permille,
        })
    }

    /// Whether it is time for the next look.
    pub fn is_due(&self, now: u64) -> bool {
        now.saturating_sub(self.since) >= SPAN
    }

    /// Takes the next look.
    pub fn look(&mut self, now: u64, number: usize, worked: u64) {
        let span = now.saturating_sub(self.since).max(1);
        if let Some(before) = self.worked.get_mut(number) {
            let share = worked.saturating_sub(*before).saturating_mul(1000);
            *before = worked;
            if let Some(permille) = self.permille.get_mut(number) {
                *permille = (share / span).min(1000);
            }
        }
    }

    /// Ends a look that was taken at all loops.
    pub fn finish(&mut self, now: u64) {
        self.since = now;
    }

    /// The share of a loop, in thousandths.
    pub fn of(&self, number: usize) -> u64 {
        self.permille.get(number).copied().unwrap_or(0)
    }

    /// The loop that worked least.
    pub fn least(&self) -> usize {
        let mut least = 0;
        for (number, share) in self.permille.iter().enumerate() {
            if *share < self.of(least) {
                least = number;
            }
        }
        least
    }

    /// The first loop that worked no more than this.
    pub fn first_below(&self, most: u64) -> Option<usize> {
        for (number, share) in self.permille.iter().enumerate() {
            if *share <= most {
                return Some(number);
            }
        }
        None
    }
}
