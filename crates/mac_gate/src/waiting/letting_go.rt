//! Which connections of a loop are let go before their peers end them.

ghost use Rattle.mac_gate.specs.Going.{KeepTheirs, StayInPlace};

use crate::waiting::Waiting;
use mac_sockets::{Holds, REST_MIN, heaviest};
use std::sync::Wait;
use std::time::Clock;

impl Waiting {
    /// Lets the connection go to which nothing was sent for longest, where that is for long enough.
    /// Whether there is one.
    pub fn drop_stalest(&mut self) -> bool
        ensures { StayInPlace self.old.connections.slots self.new.connections.slots }
    {
        let Some((slot, since)) = self.stalest() else {
            return false;
        };
        let has_rested = self.now().saturating_sub(since) >= REST_MIN;
        has_rested && self.release(slot)
    }

    /// Lets the connection of a slot go. Whether there is one.
    pub(super) fn release(&mut self, slot: usize) -> bool
        ensures { StayInPlace self.old.connections.slots self.new.connections.slots }
    {
        self.dear.leave(slot);
        let Some(one) = self.connections.slots.release(slot) else {
            return false;
        };
        self.account.count(one.held(), 0);
        true
    }

    /// Lets the connection go that holds most, where one of this loop is to end. Whether there is
    /// one.
    pub fn drop_heaviest<R: Wait>(&mut self, rt: &R) -> bool
        ensures { StayInPlace self.old.connections.slots self.new.connections.slots }
    {
        if !self.account.must_end(rt) {
            return false;
        }
        let Some(heavy) = heaviest(&self.connections.slots) else {
            return false;
        };
        let is_gone = self.release(heavy.slot);
        self.settle(rt);
        is_gone
    }

    /// Where there was no memory for a turn that is due, waits for what other loops give back.
    pub fn await_others<R: Wait + Clock>(&self, rt: &R) {
        if self.account.lacks() && self.has_turn() {
            self.account.await_others(rt);
        }
    }

    /// When something was sent to that one, in microseconds.
    pub fn stalest_since(&self) -> Option<u64> {
        let (_, since) = self.stalest()?;
        Some(since)
    }

    /// The slot of the connection to which nothing was sent for longest, of those that don't wait
    /// for a turn, and when something was.
    fn stalest(&self) -> Option<(usize, u64)> {
        let mut stalest: Option<(usize, u64)> = None;
        for slot in 0..self.bound() {
            let Some(one) = self.connections.slots.get(slot) else {
                continue;
            };
            let since = one.since();
            if !one.is_waiting() && stalest.is_none_or(|(_, other)| since < other) {
                stalest = Some((slot, since));
            }
        }
        stalest
    }

    /// Takes nothing more from those that are idle than what has come.
    pub fn end_idle(&mut self)
        ensures { KeepTheirs self.old.connections.slots self.new.connections.slots }
    {
        for slot in 0..self.bound() {
            self.end_if_idle(slot);
        }
    }

    /// The same of one of them.
    pub(super) fn end_if_idle(&mut self, slot: usize)
        ensures { KeepTheirs self.old.connections.slots self.new.connections.slots }
    {
        let Some(one) = self.connections.slots.get_mut(slot) else {
            return;
        };
        one.end_if_idle();
        self.list(slot);
    }
}
