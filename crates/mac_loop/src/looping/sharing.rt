//! Clients that go from loop to loop: few share a loop for as long as it keeps up.

use crate::inbox::Loops;
use crate::looping::Loop;
use crate::register::Origin;
use crate::watch::Watch;
use mac_board::Outlook;
use std::sync::Wait;
use std::time::Clock;

/// A loop that worked a greater share of the time, in thousandths, gives clients away.
const SHARE_HIGH: u64 = 900;

/// A loop that worked no more may take them.
const SHARE_LOW: u64 = 500;

/// At how many looks in a row a loop can't keep up, where no client has sent more than it reads in
/// a turn. What they sent then waits for replies: a moment without time is no lack of it, and what
/// two loops answer apart costs more than what one answers together.
const LOOKS: u8 = 4;

/// Two loops that together worked no more become one.
const SHARE_ONE: u64 = 600;

/// Which loop takes active clients, and one in how many of them.
#[derive(Clone, Copy)]
struct Gift {
    to: usize,
    one_in: usize,
}

impl<O: Origin> Loop<O> {
    /// Gives clients to another loop: half of those that are active where this one can't keep up,
    /// all of them where one before it has time for them.
    pub(super) fn spread<R: Wait + Clock, K: Outlook, W: Watch>(
        &mut self,
        rt: &R,
        loops: &Loops<O>,
        outlook: &mut K,
        watch: &W,
    ) {
        let own = self.shares.of(self.number);
        let least = self.shares.least();
        self.note_share(own);
        if self.is_late() && self.shares.of(least) <= SHARE_LOW {
            self.late = 0;
            let half = Gift {
                to: least,
                one_in: 2,
            };
            self.give(rt, loops, outlook, watch, half);
        } else if own <= SHARE_ONE {
            if let Some(before) = self.shares.first_below(SHARE_ONE - own) {
                if before < self.number {
                    let all = Gift {
                        to: before,
                        one_in: 1,
                    };
                    self.give(rt, loops, outlook, watch, all);
                }
            }
        }
        // From here on nobody is active.
        self.looks = self.looks.wrapping_add(1);
    }

    /// Notes a look at which it worked this share of the time.
    fn note_share(&mut self, own: u64) {
        self.late = if own >= SHARE_HIGH {
            self.late.saturating_add(1)
        } else {
            0
        };
    }

    /// Whether it can't keep up.
    fn is_late(&self) -> bool {
        self.late >= LOOKS || (self.late > 0 && self.roll.slots().has_ready())
    }

    /// Gives active clients to another loop.
    fn give<R: Wait + Clock, K: Outlook, W: Watch>(
        &mut self,
        rt: &R,
        loops: &Loops<O>,
        outlook: &mut K,
        watch: &W,
        gift: Gift,
    ) {
        let mut seen = 0usize;
        for slot in 0..self.roll.slots().bound() {
            let member = self.roll.slots().get(slot);
            if member.is_some_and(|member| member.is_active(self.looks)) {
                seen = seen.saturating_add(1);
                if seen % gift.one_in.max(1) == 0 {
                    self.move_to(rt, loops, outlook, gift.to, slot);
                    self.take_back(rt, loops, outlook, watch);
                }
            }
        }
    }

    /// Moves the client of a slot to another loop. Where there is no memory for that it stays, and
    /// so does one that goes on to its end: whoever took it would read it again.
    fn move_to<R: Wait + Clock, K: Outlook>(
        &mut self,
        rt: &R,
        loops: &Loops<O>,
        outlook: &mut K,
        number: usize,
        slot: usize,
    ) {
        let member = self.roll.slots().get(slot);
        if !member.is_some_and(|member| member.client.may_move()) {
            return;
        }
        let _ = self.roll.note_rest(slot, self.now);
        self.count_out(slot);
        self.roll.hand_on(rt, loops, number, slot, outlook);
    }

    /// Takes in anew a client that the other loop had no place for.
    fn take_back<R: Wait + Clock, K: Outlook, W: Watch>(
        &mut self,
        rt: &R,
        loops: &Loops<O>,
        outlook: &mut K,
        watch: &W,
    ) {
        if self.roll.newcomer().is_some() {
            self.receive(rt, loops, outlook, watch);
        }
    }
}
