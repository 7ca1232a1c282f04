//! Clients that are handed over to a loop.

use crate::inbox::{Loops, NEWCOMERS_MAX};
use crate::looping::Loop;
use crate::register::Origin;
use crate::watch::{PlainFault, Watch};
use mac_board::Outlook;
use std::sync::Wait;
use std::time::Clock;

impl<O: Origin> Loop<O> {
    /// Takes in the clients that were handed over: so many between two turns at most, and then it
    /// looks again. So a flood of newcomers keeps none of its clients from a turn.
    pub(super) fn take_in_all<R: Wait + Clock, K: Outlook, W: Watch>(
        &mut self,
        rt: &R,
        loops: &Loops<O>,
        outlook: &mut K,
        watch: &W,
    ) {
        let (mut came, mut displaces) = (0usize, false);
        for _ in rt.forever() {
            if came >= NEWCOMERS_MAX {
                loops.wake(self.number);
                break;
            }
            if !self.roll.call(rt, loops, self.number) {
                break;
            }
            came = came.saturating_add(1);
            displaces = displaces || self.roll.is_displacing();
            if self.admit(rt, watch) {
                self.receive(rt, loops, outlook, watch);
            }
        }
        if displaces {
            self.tell_stalest(loops);
        }
    }

    /// Takes the newcomer in, or ends it where there is no memory for that.
    pub(super) fn receive<R: Wait + Clock, K: Outlook, W: Watch>(
        &mut self,
        rt: &R,
        loops: &Loops<O>,
        outlook: &mut K,
        watch: &W,
    ) {
        match self.roll.take_in(outlook, self.looks) {
            Some(slot) => self.begin(loops, slot),
            None => self.roll.end_newcomer(rt, watch, PlainFault::NoMemory),
        }
    }

    /// Counts a client that has a slot from now on.
    fn begin(&mut self, loops: &Loops<O>, slot: usize) {
        if let Some(member) = self.roll.slots().get(slot) {
            loops.note_rest(self.number, member.note.badge.socket, member.note.since);
        }
        self.count_held(slot);
        if self.is_draining {
            self.roll.end_reading(slot);
        } else {
            self.roll.list(slot);
        }
    }

    /// Counts anew what the client of a slot holds.
    pub(super) fn count_held(&mut self, slot: usize) {
        let (before, now) = self.roll.count_held(slot);
        self.account.count(before, now);
    }

    /// Counts a client no more that leaves its slot.
    pub(super) fn count_out(&mut self, slot: usize) {
        if let Some(member) = self.roll.slots().get(slot) {
            self.account.count(member.note.held, 0);
        }
    }

    /// Once the loops are draining, takes nothing more from its clients than what has come.
    pub(super) fn drain(&mut self, loops: &Loops<O>) {
        if self.is_draining || !loops.is_draining() {
            return;
        }
        self.is_draining = true;
        for slot in 0..self.roll.slots().bound() {
            self.roll.end_reading(slot);
        }
    }
}
