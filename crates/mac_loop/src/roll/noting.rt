//! What a loop notes of its clients in their slots.

use crate::asks::{Answered, Delivered};
use crate::register::Origin;
use crate::roll::Roll;
use mac_plain::{Came, Round};

impl<O: Origin> Roll<O> {
    /// Takes nothing more from the client of a slot than what has come.
    pub fn end_reading(&mut self, slot: usize) {
        let Some(member) = self.connections.get_mut(slot) else {
            return;
        };
        member.end_reading();
        self.connections.slots.list(slot);
    }

    /// Counts how many bytes of memory the client of a slot holds: so many before, and so many now.
    pub fn count_held(&mut self, slot: usize) -> (u64, u64) {
        let Some(member) = self.connections.get_mut(slot) else {
            return (0, 0);
        };
        member.count_held()
    }

    /// Notes whether the client of a slot rests. Since when it has, in microseconds.
    pub fn note_rest(&mut self, slot: usize, now: u64) -> Option<u64> {
        let Some(member) = self.connections.get_mut(slot) else {
            return None;
        };
        Some(member.note_rest(now))
    }

    /// Notes what the client of a slot waits for after its turn. Whether its poll isn't told yet
    /// that it waits for room to write, or no longer does.
    pub fn note_turn(&mut self, slot: usize, now: u64, unsent_max: usize) -> bool {
        let Some(member) = self.connections.get_mut(slot) else {
            return false;
        };
        let awaited = member.note.awaits_room;
        member.note_turn(now, unsent_max);
        member.note.awaits_room != awaited
    }

    /// Where the client of a slot sent a frame that was too long, which is refused, drops what has
    /// come behind that. What may come further.
    pub fn drop_piece(&mut self, slot: usize, now: u64) -> Option<Came> {
        let Some(member) = self.connections.get_mut(slot) else {
            return None;
        };
        if !member.is_parting() {
            return None;
        }
        Some(member.drop_piece(now))
    }

    /// There is no answer for the client of a slot, for want of memory.
    pub fn lose_answer(&mut self, slot: usize) {
        let Some(member) = self.connections.get_mut(slot) else {
            return;
        };
        let before = member.client.unsent();
        member.lose_answer();
        let now = member.client.unsent();
        self.backlog.change(before, now);
    }

    /// Gives the client that asked what came of it, if it is still there. How many bytes were
    /// unsent on it before.
    pub fn take_answer(&mut self, answered: Answered, round: &mut Round) -> Delivered {
        let Answered { asker, answer } = answered;
        let Some(member) = self.connections.get_mut(asker.slot) else {
            return Delivered::Nowhere;
        };
        if member.note.badge.number != asker.number {
            return Delivered::Nowhere;
        }
        let before = member.client.unsent();
        let counted = member.take_answer(round, answer);
        let now = member.client.unsent();
        self.backlog.change(before, now);
        match counted {
            Some(request) => Delivered::Answered(request),
            None => Delivered::Unanswered,
        }
    }
}
