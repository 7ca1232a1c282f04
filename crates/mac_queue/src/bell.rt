//! A bell: who finds nothing to do sleeps on it until it is rung, without a lock.
//!
//! A sleeper goes in three steps: it announces itself, looks once more at everything that it
//! waits for, and sleeps. Who brings something changes what is looked at first and rings then.
//! Either the ringer sees the sleeper announced, or the sleeper's look comes after the change.

use crossbeam_utils::CachePadded;
use std::sync::Wait;
use std::sync::atomic::Ordering::SeqCst;
use std::sync::atomic::{AtomicBool, AtomicU64};

/// A count of rings on which threads sleep, on cache lines of its own. It is no part of any proof
/// that a sleeper wakes.
#[derive(Drop)]
pub struct Bell {
    words: CachePadded<Words>,
}

#[derive(Drop)]
struct Words {
    rings: AtomicU64,
    sleepers: AtomicU64,
    // Somebody was woken and has not looked yet: who rings now need not wake another.
    is_answered: AtomicBool,
}

/// A wait that is announced. It goes to [`Bell::sleep`] or to [`Bell::withdraw`] of its bell.
pub struct AnnouncedWait {
    rings: u32,
}

impl Bell {
    /// A bell on which nobody sleeps.
    pub const fn new() -> Bell {
        Bell {
            words: CachePadded::new(Words {
                rings: AtomicU64::new(0),
                sleepers: AtomicU64::new(0),
                is_answered: AtomicBool::new(false),
            }),
        }
    }

    /// Announces a wait. Look after it at everything that is waited for, then sleep or withdraw.
    pub fn announce(&self) -> AnnouncedWait {
        let words = &*self.words;
        words.sleepers.fetch_add(1, SeqCst);
        let rings = (words.rings.load(SeqCst) & 0xffff_ffff) as u32;
        // Rings before this one are answered by the look that follows.
        words.is_answered.store(false, SeqCst);
        AnnouncedWait { rings }
    }

    /// Sleeps until a ring after the announcement. It may return for no reason: look again.
    pub fn sleep<R: Wait>(&self, rt: &R, notice: AnnouncedWait) {
        let AnnouncedWait { rings } = notice;
        self.words.rings.park(rt, rings);
        self.leave();
    }

    /// Ends a wait that found something. Look again once that is dealt with.
    pub fn withdraw(&self, notice: AnnouncedWait) {
        let AnnouncedWait { rings: _ } = notice;
        self.leave();
    }

    fn leave(&self) {
        let words = &*self.words;
        words.sleepers.fetch_sub(1, SeqCst);
        words.is_answered.store(false, SeqCst);
    }

    /// Whether anybody has announced a wait that has not ended.
    pub fn is_awaited(&self) -> bool {
        self.words.sleepers.load(SeqCst) > 0
    }

    /// Wakes one sleeper, after the change that it waits for. It costs one load where nobody
    /// sleeps, and wakes nobody where one was woken that has not looked yet.
    pub fn ring(&self) {
        let words = &*self.words;
        if words.sleepers.load(SeqCst) == 0 || words.is_answered.swap(true, SeqCst) {
            return;
        }
        words.rings.fetch_add(1, SeqCst);
        words.rings.wake_one();
    }

    /// Wakes all sleepers, after the change that they wait for.
    pub fn ring_all(&self) {
        let words = &*self.words;
        words.rings.fetch_add(1, SeqCst);
        words.rings.wake_all();
    }
}
