//! Counters that all threads share.

ghost use Rattle.mac_count.specs.Number.{IsGauge};

use crate::number::{AnsweredRequest, NUMBERS, Number, REQUESTS};
use crate::snapshot::Snapshot;
use crate::times::{BUCKETS, bucket_of};
use std::array;
use std::sync::atomic::AtomicU64;
use std::sync::atomic::Ordering::SeqCst;

/// Counters, each of them one word that no lock guards. What they show together need not have been
/// so at one moment.
#[derive(Drop)]
pub struct Counters {
    numbers: [AtomicU64; NUMBERS],
    requests: [AtomicU64; REQUESTS],
    times: [AtomicU64; BUCKETS],
    micros: AtomicU64,
}

impl Counters {
    /// All of them 0.
    pub fn new() -> Counters {
        Counters {
            numbers: array::from_fn(|_| AtomicU64::new(0)),
            requests: array::from_fn(|_| AtomicU64::new(0)),
            times: array::from_fn(|_| AtomicU64::new(0)),
            micros: AtomicU64::new(0),
        }
    }

    /// Adds to a number.
    pub fn add(&self, number: Number, count: u64) {
        self.numbers[number.place()].fetch_add(count, SeqCst);
    }

    /// Takes from a number that was added to before. It is one that goes both ways.
    pub fn take(&self, number: Number, count: u64)
        requires { IsGauge number }
    {
        self.numbers[number.place()].fetch_sub(count, SeqCst);
    }

    /// Sets a number. It is one that goes both ways.
    pub fn set(&self, number: Number, value: u64)
        requires { IsGauge number }
    {
        self.numbers[number.place()].store(value, SeqCst);
    }

    /// Counts a request that was answered, and took so many microseconds.
    pub fn answered(&self, request: AnsweredRequest, micros: u64) {
        self.requests[request.place()].fetch_add(1, SeqCst);
        self.add_times(1, micros);
    }

    /// Counts requests that were answered, so many of each at its place, of which each took so many
    /// microseconds.
    pub fn add_requests(&self, counts: &[u64; REQUESTS], micros: u64) {
        let mut count = 0u64;
        for place in 0..REQUESTS {
            if counts[place] > 0 {
                self.requests[place].fetch_add(counts[place], SeqCst);
                count = count.saturating_add(counts[place]);
            }
        }
        self.add_times(count, micros);
    }

    /// Counts how long so many requests took.
    fn add_times(&self, count: u64, micros: u64) {
        if count > 0 {
            self.times[bucket_of(micros)].fetch_add(count, SeqCst);
            self.micros.fetch_add(count.saturating_mul(micros), SeqCst);
        }
    }

    /// What the counters show.
    pub fn snapshot(&self) -> Snapshot {
        Snapshot {
            numbers: array::from_fn(|place| load(&self.numbers, place)),
            requests: array::from_fn(|place| load(&self.requests, place)),
            times: array::from_fn(|place| load(&self.times, place)),
            micros: self.micros.load(SeqCst),
        }
    }
}

/// What a counter shows.
fn load(counters: &[AtomicU64], place: usize) -> u64 {
    match counters.get(place) {
        Some(counter) => counter.load(SeqCst),
        None => 0,
    }
}
