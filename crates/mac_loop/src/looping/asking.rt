//! What a loop must not answer: clients ask workers, and take the answers in their slots.

ghost use Rattle.std.specs.Prelude.{◌≡◌};

use crate::asks::{Answered, Asker, Asks, Delivered};
use crate::looping::Loop;
use crate::register::Origin;
use crate::watch::Watch;
use mac_decide::Job;
use mac_host::Badge;
use std::sync::Wait;

impl<O: Origin> Loop<O> {
    /// Has a worker answer a job of the client of a slot, which waits for that from now on. Without
    /// memory it has fallen.
    pub(super) fn ask<R: Wait, W: Watch>(
        &mut self,
        rt: &R,
        slot: usize,
        job: Job,
        asks: &mut Asks,
        watch: &W,
    )
        ensures { asks.new ≡ asks.old }
    {
        let Some(member) = self.roll.slots().get(slot) else {
            return;
        };
        let life = member.life();
        let Badge { number, socket, .. } = life.badge;
        let asker = Asker {
            slot,
            number,
            since: self.now,
        };
        if asks.ask(rt, socket, asker, job) {
            watch.widen(life);
        } else {
            self.roll.lose_answer(slot);
        }
    }

    /// Gives clients the answers that have come, and puts as many jobs more into the line. Those of
    /// clients that have ended meanwhile are let go.
    pub(super) fn take_answers<R: Wait, W: Watch>(&mut self, rt: &R, asks: &mut Asks, watch: &W)
        ensures { asks.new ≡ asks.old }
    {
        for _ in rt.forever() {
            let Some(answered) = asks.next(rt) else {
                break;
            };
            self.hand_back(answered, watch);
        }
        asks.sift(self.roll.slots());
        asks.put_more(rt);
    }

    /// Gives the client that asked what came of it, if it is still there.
    fn hand_back<W: Watch>(&mut self, answered: Answered, watch: &W) {
        let Asker { slot, since, .. } = answered.asker;
        let answered = match self.roll.take_answer(answered, &mut self.round) {
            Delivered::Nowhere => return,
            Delivered::Unanswered => None,
            Delivered::Answered(request) => Some(request),
        };
        if let Some(member) = self.roll.slots().get(slot) {
            if answered.is_some() || !member.client.is_waiting() {
                let waited = self.now.saturating_sub(since);
                watch.narrow(member.life(), answered, waited);
            }
        }
        self.count_held(slot);
        self.roll.list(slot);
    }
}
