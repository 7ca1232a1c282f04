//! Clients that make no progress: a loop looks for them from time to time, and ends them. One that
//! is owed something is looked at again, whether or not an event told of it.

use crate::inbox::Loops;
use crate::looping::Loop;
use crate::members::Progress;
use crate::register::Origin;
use crate::watch::{PlainFault, Watch};
use mac_plain::Course;
use mac_sockets::Readiness;
use std::sync::Wait;
use std::time::Clock;

/// How many microseconds pass between two looks at who makes progress, where seconds were asked
/// for, or a client is owed something.
const SWEEP: u64 = 1_000_000;

/// How many pass where neither is so.
const SWEEP_SELDOM: u64 = 10_000_000;

/// After how many seconds a client is ended then that has sent nothing whole.
const QUIET: u64 = 300;

/// The microseconds of a second.
const SECOND: u64 = 1_000_000;

impl<O: Origin> Loop<O> {
    /// Ends the clients that have made no progress for as long as they may, and looks again at
    /// those that are owed something. So an event that was missed delays them, and no more.
    pub(super) fn sweep<R: Wait + Clock, W: Watch>(&mut self, rt: &R, loops: &Loops<O>, watch: &W) {
        if self.now.saturating_sub(self.swept) < self.sweep_span() {
            return;
        }
        self.swept = self.now;
        self.is_owing = false;
        for slot in 0..self.roll.slots().bound() {
            if self.has_parted(slot) {
                self.end(rt, watch, slot, None);
            } else if self.is_idle(slot) {
                self.end(rt, watch, slot, Some(PlainFault::Idle));
            } else if self.is_owed(slot) {
                self.is_owing = true;
                self.roll.wake(slot, Readiness::UNTOLD);
            }
        }
        self.tell_stalest(loops);
    }

    /// Ends the client of a slot, by a fault or as it stands.
    pub(super) fn end<R: Wait + Clock, W: Watch>(
        &mut self,
        rt: &R,
        watch: &W,
        slot: usize,
        fault: Option<PlainFault>,
    ) {
        self.count_out(slot);
        self.roll.end(rt, watch, slot, fault);
    }

    /// Whether the peer of the client of a slot has had the time to end.
    fn has_parted(&self, slot: usize) -> bool {
        let member = self.roll.slots().get(slot);
        member.is_some_and(|member| member.has_parted(self.now))
    }

    /// How many microseconds pass between two looks at who makes progress.
    pub(super) fn sweep_span(&self) -> u64 {
        let has_some = self.roll.slots().count() > 0;
        if has_some && (self.idle.is_some() || self.is_owing) {
            SWEEP
        } else {
            SWEEP_SELDOM
        }
    }

    /// How many seconds a client may make no progress. Where none were asked for, one may rest that
    /// was answered and has begun nothing since, and one that is owed replies.
    fn patience_with(&self, progress: Progress) -> Option<u64> {
        let is_quiet = progress.answered == 0 || progress.has_begun;
        match self.idle {
            Some(idle) => Some(idle),
            None if is_quiet && progress.unsent == 0 => Some(QUIET),
            None => None,
        }
    }

    /// Whether the client of a slot is owed something.
    fn is_owed(&self, slot: usize) -> bool {
        let member = self.roll.slots().get(slot);
        member.is_some_and(|member| member.is_owed())
    }

    /// Notes a client's progress. Whether it has made none for as long as it may, and no turn of
    /// the loop and no worker's answer is due to it. A request that has begun has to be whole in
    /// that time, also of who sends a byte for each turn.
    fn is_idle(&mut self, slot: usize) -> bool {
        let is_listed = self.roll.slots().is_listed(slot);
        let Some(since) = self.roll.note_rest(slot, self.now) else {
            return false;
        };
        let Some(member) = self.roll.slots().get(slot) else {
            return false;
        };
        let waited = self.now.saturating_sub(since);
        let progress = member.note.progress;
        let is_held = member.client.course() == Course::Held;
        let is_due = is_listed && (is_held || !progress.has_begun);
        !is_due
            && self
                .patience_with(progress)
                .is_some_and(|seconds| waited >= seconds.saturating_mul(SECOND))
    }
}
