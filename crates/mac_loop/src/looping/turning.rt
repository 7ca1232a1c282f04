//! A turn of a loop: the clients that are ready are served together, and then each is looked after.

ghost use Rattle.std.specs.Prelude.{◌≡◌};

use crate::asks::Asks;
use crate::inbox::Loops;
use crate::looping::{Loop, PARTS_MAX};
use crate::register::Origin;
use crate::roll::Back;
use crate::watch::{Turn, Watch};
use mac_board::Outlook;
use mac_host::Traffic;
use mac_plain::{Came, RoundTerms};
use std::sync::Wait;
use std::thread::Threads;
use std::time::Clock;

/// How many parts of a turn a client takes that has more to be read than a turn takes.
const DEEP: usize = 32;

impl<O: Origin> Loop<O> {
    /// Answers what clients that are ready have sent. What the turn came to.
    pub(super) fn serve_ready<R: Wait + Clock + Threads + Sync, K: Outlook, W: Watch>(
        &mut self,
        rt: &R,
        loops: &Loops<O>,
        outlook: &mut K,
        asks: &mut Asks,
        watch: &W,
    ) -> Turn
        ensures { asks.new ≡ asks.old }
    {
        self.tell_unsent(loops);
        self.unsent_max = loops.unsent_max();
        let growth = self.pick(rt);
        let is_room = self.has_room(rt, growth);
        let unsent_max = if is_room { self.unsent_max } else { 0 };
        let spare = loops.begin_turn();
        // What makes turns long is read in small pieces.
        let terms = RoundTerms {
            threads: if self.parts < PARTS_MAX { 1 } else { spare },
            unsent_max,
        };
        self.roll.serve(rt, &mut self.round, terms, outlook);
        loops.end_turn();
        self.finish_turn(rt, outlook, asks, watch)
    }

    /// Does what the clients of a turn have left to do. What the turn came to.
    fn finish_turn<R: Wait + Clock, K: Outlook, W: Watch>(
        &mut self,
        rt: &R,
        outlook: &K,
        asks: &mut Asks,
        watch: &W,
    ) -> Turn
        ensures { asks.new ≡ asks.old }
    {
        let mut traffic = Traffic::NONE;
        for _ in rt.forever() {
            let Some(back) = self
                .roll
                .take_back(rt, self.alloc, &mut self.round, outlook, watch)
            else {
                break;
            };
            traffic = traffic.plus(back.traffic);
            self.look_after(rt, back, asks, watch);
        }
        Turn {
            requests: self.round.take_counts(),
            traffic,
        }
    }

    /// Takes the clients of a turn out of their slots. How many bytes those hold that may be read.
    fn pick<R: Wait>(&mut self, rt: &R) -> u64 {
        let (mut parts, mut growth) = (0usize, 0u64);
        for _ in rt.forever() {
            if parts >= self.parts {
                return growth;
            }
            let Some(slot) = self.roll.next_ready() else {
                return growth;
            };
            if let Some(member) = self.roll.slots().get(slot) {
                if member.client.unsent() < self.unsent_max {
                    growth = growth.saturating_add(member.note.held);
                }
            }
            parts = parts.saturating_add(self.roll.lend(slot, DEEP, self.looks));
        }
        unreachable!()
    }

    /// Does what a client has left to do behind its turn.
    fn look_after<R: Wait + Clock, W: Watch>(
        &mut self,
        rt: &R,
        back: Back,
        asks: &mut Asks,
        watch: &W,
    )
        ensures { asks.new ≡ asks.old }
    {
        let Back {
            slot,
            traffic: _,
            job,
        } = back;
        if let Some(job) = job {
            self.ask(rt, slot, job, asks, watch);
        }
        if self.is_over(slot) && !self.drops_rest(slot) {
            self.end(rt, watch, slot, None);
        } else {
            self.note_turn(slot, watch);
        }
    }

    /// Whether nothing more is to be done on the client of a slot.
    fn is_over(&self, slot: usize) -> bool {
        let member = self.roll.slots().get(slot);
        member.is_some_and(|member| member.client.is_over())
    }

    /// Where a frame was too long and is refused, drops what has come behind it. Whether more may
    /// come.
    fn drops_rest(&mut self, slot: usize) -> bool {
        match self.roll.drop_piece(slot, self.now) {
            Some(Came::Bytes(_)) => {
                self.roll.list(slot);
                true
            }
            Some(Came::Later) => {
                self.is_owing = true;
                true
            }
            Some(Came::End | Came::Fault) | None => false,
        }
    }

    /// Notes what the client of a slot waits for after its turn, and what it holds.
    fn note_turn<W: Watch>(&mut self, slot: usize, watch: &W) {
        if let Some(member) = self.roll.slots().get(slot) {
            watch.see(member.life(), member.client.unsent());
        }
        if self.roll.note_turn(slot, self.now, self.unsent_max) {
            self.roll.await_room(slot);
        }
        self.count_held(slot);
        let Some(member) = self.roll.slots().get(slot) else {
            return;
        };
        self.is_owing = self.is_owing || member.is_owed();
        if member.note.is_deep {
            self.roll.list(slot);
        }
    }
}
