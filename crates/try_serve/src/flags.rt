//! What the threads of a run tell each other.

use std::sync::atomic::AtomicBool;
use std::sync::atomic::Ordering::SeqCst;
use std::thread;

/// How often a thread looks for what it waits for, and lets others go on in between.
pub(crate) const TURNS: u32 = 10_000_000;

/// What two threads wait for, and whether one of them waited in vain.
#[derive(Drop)]
pub(crate) struct Flags {
    first: AtomicBool,
    second: AtomicBool,
    missed: AtomicBool,
}

impl Flags {
    /// Nothing has come yet.
    pub(crate) fn new() -> Flags {
        Flags {
            first: AtomicBool::new(false),
            second: AtomicBool::new(false),
            missed: AtomicBool::new(false),
        }
    }

    pub(crate) fn set_first(&self) {
        self.first.store(true, SeqCst);
    }

    pub(crate) fn set_second(&self) {
        self.second.store(true, SeqCst);
    }

    pub(crate) fn await_first(&self) {
        self.await_flag(&self.first);
    }

    pub(crate) fn await_second(&self) {
        self.await_flag(&self.second);
    }

    fn await_flag(&self, flag: &AtomicBool) {
        for _ in 0..TURNS {
            if flag.load(SeqCst) {
                return;
            }
            thread::yield_now();
        }
        self.missed.store(true, SeqCst);
    }

    /// Whether both came, and nobody waited in vain.
    pub(crate) fn are_met(&self) -> bool {
        self.first.load(SeqCst) && self.second.load(SeqCst) && !self.missed.load(SeqCst)
    }
}
