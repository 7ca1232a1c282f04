//! What the clients of a loop hold of the memory that those of all loops have together: before it
//! is passed nobody is read, and the client that holds most is ended.

use crate::looping::Loop;
use crate::register::Origin;
use crate::watch::{PlainFault, Watch};
use mac_sockets::{Heavy, heaviest};
use std::sync::Wait;
use std::time::Clock;

/// How many bytes a turn may take beside what its clients hold, which may double: the replies to
/// all that it reads, in memory that doubles too.
const TURN_ROOM: u64 = 8_388_608;

impl<O: Origin> Loop<O> {
    /// Has the memory that its turn may take, whose clients may hold so much more behind it.
    /// Whether there is as much: else nobody is to be read.
    pub(super) fn has_room<R: Wait>(&mut self, rt: &R, growth: u64) -> bool {
        let more = if self.roll.has_turn() {
            growth.saturating_add(TURN_ROOM)
        } else {
            0
        };
        self.account.has_room(rt, more)
    }

    /// Gives back what a turn hasn't taken, and what those had who have left. Where some loop lacks
    /// more than clients leave, those here that hold most are ended, as long as they hold much;
    /// else a loop that lacks memory waits for others.
    pub(super) fn settle<R: Wait + Clock, W: Watch>(&mut self, rt: &R, watch: &W) {
        let _ = self.account.settle(rt);
        let mut has_ended = false;
        for _ in rt.forever() {
            let Some(Heavy { slot, held, .. }) = self.heaviest(rt) else {
                break;
            };
            self.end(rt, watch, slot, Some(PlainFault::Heavy));
            self.account.want_less(rt, held);
            let _ = self.account.settle(rt);
            has_ended = true;
        }
        if !has_ended && self.account.lacks() && self.roll.slots().has_ready() {
            self.account.await_others(rt);
        }
    }

    /// The client that holds most, where one of this loop is to end.
    fn heaviest<R: Wait>(&self, rt: &R) -> Option<Heavy> {
        if self.account.must_end(rt) {
            heaviest(self.roll.slots())
        } else {
            None
        }
    }
}
