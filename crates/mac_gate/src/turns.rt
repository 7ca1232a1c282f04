//! The turns of those that have a dear request.

ghost use Rattle.std.specs.Prelude.{◌≡◌, ◌==◌, [], length, drop, if◌then◌else◌, slice_get, IfOk, OnErr};
ghost use Rattle.mac_gate.specs.Turns.{times, with_turn, without_turn};

use std::alloc::{AllocError, Global};
use std::collections::VecDeque;
use std::marker::Model;

/// The slots whose connections have a dear request, each once, the next one first.
#[derive(Drop)]
pub struct Turns {
    slots: VecDeque<usize>,
}

impl Model for Turns {
    ghost use Rattle.std.specs.Prelude.{ℕ, List};
    ghost use Rattle.mac_gate.specs.Turns.{IsOnce};

    ghost Value = { List ℕ };

    ghost view = { λ turns. turns.slots.items };

    ghost invariant = { λ turns. IsOnce turns.slots.items };
}

impl Turns {
    /// Nobody's. It takes no memory.
    pub fn new(alloc: Global) -> Turns
        ensures { result ≡ [] }
    {
        Turns {
            slots: VecDeque::new(alloc),
        }
    }

    /// Whether it is nobody's turn.
    pub fn is_empty(&self) -> bool
        ensures { result ≡ (length self.now == 0) }
    {
        self.slots.is_empty()
    }

    /// Whether a slot has a turn: it has one, or none.
    pub fn has(&self, slot: usize) -> bool
        ensures { times slot self.now ≡ (if result then 1 else 0) }
    {
        self.slots.contains(&slot)
    }

    /// Gives a slot a turn behind the others', unless it has one. It needs memory for that.
    pub fn put(&mut self, slot: usize) -> Result<(), AllocError>
        ensures put { IfOk result (λ _. self.new ≡ with_turn self.old slot) }
        ensures same { OnErr result (self.new ≡ self.old) }
    {
        if !self.has(slot) {
            self.slots.push_back(slot)?;
        }
        Ok(())
    }

    /// The slot whose turn it is, which has none then.
    pub fn next(&mut self) -> Option<usize>
        ensures first { result ≡ slice_get self.old 0 }
        ensures rest { self.new ≡ drop 1 self.old }
    {
        self.slots.pop_front()
    }

    /// Takes a slot's turn away, if it has one.
    pub fn leave(&mut self, slot: usize)
        ensures { self.new ≡ without_turn self.old slot }
    {
        self.slots.retain(|other| *other != slot);
    }
}
