//! What the two halves of a connection tell each other while they run.

use mac_queue::{AnnouncedWait, Bell};
use std::sync::Wait;
use std::sync::atomic::{AtomicBool, AtomicU64, Ordering};
use std::time::Duration;

/// How often the inbound half waits for the thread of the outbound half, each time a tenth of a
/// second.
const THREAD_TURNS: u32 = 100;

/// What the two halves of a connection tell each other while they run. They are hints on when to
/// look, to wait and to
/// stop: no contract speaks of them.
#[derive(Drop)]
pub struct HalfSignals {
    outbound_begun: AtomicU64,
    inbound_ended: AtomicBool,
    inbound_failed: AtomicBool,
    outbound_ended: AtomicBool,
    sent: AtomicU64,
    wanted: AtomicU64,
    room: Bell,
}

impl HalfSignals {
    /// Both halves are about to run.
    pub fn new() -> HalfSignals {
        HalfSignals {
            outbound_begun: AtomicU64::new(0),
            inbound_ended: AtomicBool::new(false),
            inbound_failed: AtomicBool::new(false),
            outbound_ended: AtomicBool::new(false),
            sent: AtomicU64::new(0),
            wanted: AtomicU64::new(0),
            room: Bell::new(),
        }
    }

    /// The outbound half runs.
    pub fn begin_outbound(&self) {
        self.outbound_begun.store(1, Ordering::SeqCst);
        self.outbound_begun.wake_all();
    }

    /// Waits until the outbound half runs. Whether it does: where the system gives it no thread, it
    /// would run only after the inbound half.
    pub fn await_outbound(&self, rt: &impl Wait) -> bool {
        for _ in 0..THREAD_TURNS {
            if self.has_outbound_begun() {
                return true;
            }
            self.outbound_begun
                .park_timeout(rt, 0, Duration::from_millis(100));
        }
        self.has_outbound_begun()
    }

    fn has_outbound_begun(&self) -> bool {
        self.outbound_begun.load(Ordering::SeqCst) == 1
    }

    /// The inbound half has put its last job. Where it failed, a job that it admitted may not have
    /// been put.
    pub fn end_inbound(&self, has_failed: bool) {
        self.inbound_failed.store(has_failed, Ordering::SeqCst);
        self.inbound_ended.store(true, Ordering::SeqCst);
    }

    /// Whether the inbound half ended before it put all that it admitted.
    pub fn has_inbound_failed(&self) -> bool {
        self.inbound_failed.load(Ordering::SeqCst)
    }

    /// Whether the inbound half has put its last job.
    pub fn has_inbound_ended(&self) -> bool {
        self.inbound_ended.load(Ordering::SeqCst)
    }

    /// The outbound half sends nothing more: the inbound half need not go on.
    pub fn end_outbound(&self) {
        self.outbound_ended.store(true, Ordering::SeqCst);
        self.room.ring_all();
    }

    /// Whether the outbound half sends nothing more.
    pub fn has_outbound_ended(&self) -> bool {
        self.outbound_ended.load(Ordering::SeqCst)
    }

    /// The replies below this place went out, and slips may be free: wakes the inbound half where
    /// it waits for no more than that.
    pub fn make_room(&self, sent: u64) {
        self.sent.store(sent, Ordering::SeqCst);
        if sent >= self.wanted.load(Ordering::SeqCst) {
            self.room.ring();
        }
    }

    /// The replies below this place went out.
    pub fn sent(&self) -> u64 {
        self.sent.load(Ordering::SeqCst)
    }

    /// Announces that the inbound half is about to wait until the replies below this place went
    /// out. It looks once more before it sleeps.
    pub fn announce(&self, wanted: u64) -> AnnouncedWait {
        self.wanted.store(wanted, Ordering::SeqCst);
        self.room.announce()
    }

    /// Sleeps until there may be room.
    pub fn sleep(&self, rt: &impl Wait, notice: AnnouncedWait) {
        self.room.sleep(rt, notice);
    }

    /// Waits no more: there was room.
    pub fn withdraw(&self, notice: AnnouncedWait) {
        self.room.withdraw(notice);
    }
}
