//! Connections in slots, and the list of those that are ready.

ghost use Rattle.std.specs.Prelude.{◌≡◌, ◌≢◌, ℕ, ◌≤◌, ◌==◌, ◌↔◌, if◌then◌else◌, length, drop};
ghost use Rattle.std.specs.Prelude.{slice_get, option_copied, count_by, not};
ghost use Rattle.std.specs.Prelude.{IsTrue, IsOk, IfOk, OnOk, IfErr, OnErr, OnSome, IfNone};
ghost use Rattle.std.specs.Option.{option_copied_mut};
ghost use Rattle.std.specs.Borrow.{sem};
ghost use Rattle.std.specs.VecDeque.{deque_capacity};
ghost use Rattle.mac_slots.specs.Slots.{Slot, Free, Lent, Held, no_slots, at, is_free, held, times};
ghost use Rattle.mac_slots.specs.Slots.{with_listed, without, Becomes};

use slab::Slab;
use std::alloc::{AllocError, Global};
use std::collections::VecDeque;
use std::marker::Model;

/// What a slot has that is somebody's.
#[derive(Drop)]
struct Owned<C> {
    // It is lent where there is none.
    connection: Option<C>,
    // Whether the slot is in the list of those that are ready.
    is_listed: bool,
}

/// The connections of a loop, each in a slot, and the list of the slots that are ready. A slot is
/// free, or somebody's: then it holds the connection, or the connection is lent out.
#[derive(Drop)]
pub struct Slots<C> {
    slots: Slab<Owned<C>>,
    ready: VecDeque<usize>,
}

impl<C> Model for Slots<C> {
    ghost use Rattle.std.specs.Prelude.{map};
    ghost use Rattle.std.specs.VecDeque.{deque_capacity};
    ghost use Rattle.mac_slots.specs.Slots.{Slots as Seen};

    ghost Value = { Seen C };

    ghost use Rattle.mac_slots.specs.Owned.{slot_of, IsSound};

    ghost view = { λ s. record { slots = map slot_of s.slots.slots; ready = s.ready.items } };

    ghost invariant = { λ s. IsSound s.slots.slots s.ready.items (deque_capacity s.ready) };
}

impl<C: Drop> Slots<C> {
    ghost use Rattle.mac_slots.specs.Lends.{lends_held};

    /// No connections.
    pub fn new(alloc: Global) -> Slots<C>
        ensures { result ≡ no_slots }
    {
        Slots {
            slots: Slab::new(alloc),
            ready: VecDeque::new(alloc),
        }
    }

    /// A slot for a connection that is to come. Room is had for what it may ask for later.
    pub fn reserve(&mut self) -> Result<usize, AllocError>
        ensures free { IfOk result (λ slot. at self.old slot ≡ Free) }
        ensures lent { IfOk result (λ slot. Becomes self.old self.new slot Lent self.old.ready) }
        ensures same { OnErr result (self.new ≡ self.old) }
    {
        self.slots.reserve(1)?;
        let room = self.slots.capacity();
        self.ready.reserve(room.saturating_sub(self.ready.len()))?;
        let slot = self.slots.insert_reserved(Owned {
            connection: None,
            is_listed: false,
        });
        Ok(slot)
    }

    /// Puts a connection into a slot that was reserved or whose connection was taken. It comes back
    /// where the slot is neither.
    pub fn put(&mut self, slot: usize, connection: C) -> Result<(), C>
        ensures lent { IsOk result ↔ (at self.old slot ≡ Lent) }
        ensures held { OnOk result
            (Becomes self.old self.new slot (Held connection) self.old.ready) }
        ensures back { IfErr result (λ back. back ≡ connection) }
        ensures same { OnErr result (self.new ≡ self.old) }
    {
        let Some(owned) = self.slots.get_mut(slot) else {
            return Err(connection);
        };
        if owned.connection.is_some() {
            return Err(connection);
        }
        owned.connection = Some(connection);
        Ok(())
    }

    /// Lends the connection of a slot out. The slot stays its own.
    pub fn take(&mut self, slot: usize) -> Option<C>
        ensures connection { result ≡ held (at self.old slot) }
        ensures lent { OnSome result (Becomes self.old self.new slot Lent self.old.ready) }
        ensures same { IfNone result (self.new ≡ self.old) }
    {
        self.slots.get_mut(slot)?.connection.take()
    }

    /// Frees a slot, which is in the list no more. The connection, if the slot holds it. It walks
    /// over the list where the slot is in it.
    pub fn release(&mut self, slot: usize) -> Option<C>
        ensures connection { result ≡ held (at self.old slot) }
        ensures free { Becomes self.old self.new slot Free (without self.old.ready slot) }
    {
        let owned = self.slots.try_remove(slot)?;
        if owned.is_listed {
            unlist(&mut self.ready, slot);
        }
        owned.connection
    }

    /// The connection that a slot holds.
    pub fn get(&self, slot: usize) -> Option<&C>
        ensures { option_copied result ≡ held (at self.now slot) }
    {
        match self.slots.get(slot) {
            Some(owned) => owned.connection.as_ref(),
            None => None,
        }
    }

    /// The same, to be changed in its place.
    pub fn get_mut(&mut self, slot: usize) -> Option<&mut C>
        ensures value { option_copied_mut result ≡ held (at self.old slot) }
        ensures* changed { sem 𝓛 (lends_held C.row self.entry slot result) }
    {
        match self.slots.get_mut(slot) {
            Some(owned) => owned.connection.as_mut(),
            None => None,
        }
    }

    /// Lists a slot that is somebody's as ready, behind those that are. It needs no memory.
    pub fn list(&mut self, slot: usize)
        ensures { self.new ≡ with_listed self.old slot }
    {
        if let Some(owned) = self.slots.get_mut(slot) {
            if !owned.is_listed {
                owned.is_listed = true;
                self.ready.push_back_reserved(slot);
            }
        }
    }

    /// Takes the first slot out of the list of those that are ready.
    pub fn next_ready(&mut self) -> Option<usize>
        ensures first { result ≡ slice_get self.old.ready 0 }
        ensures rest { self.new ≡ record self.old { ready = drop 1 self.old.ready } }
    {
        let slot = self.ready.pop_front()?;
        if let Some(owned) = self.slots.get_mut(slot) {
            owned.is_listed = false;
        }
        Some(slot)
    }

    /// Whether a slot is in the list of those that are ready: it is there once, or not at all.
    pub fn is_listed(&self, slot: usize) -> bool
        ensures times { times slot self.now.ready ≡ (if result then 1 else 0) }
        ensures owned { IsTrue result → at self.now slot ≢ Free }
    {
        match self.slots.get(slot) {
            Some(owned) => owned.is_listed,
            None => false,
        }
    }

    /// Whether a slot is ready.
    pub fn has_ready(&self) -> bool
        ensures { result ≡ not (length self.now.ready == 0) }
    {
        !self.ready.is_empty()
    }

    /// How many slots are ready.
    pub fn count_ready(&self) -> usize
        ensures { result ≡ length self.now.ready }
    {
        self.ready.len()
    }

    /// How many slots are somebody's.
    pub fn count(&self) -> usize
        ensures { result ≡ count_by (λ slot. not (is_free slot)) self.now.slots }
    {
        self.slots.len()
    }

    /// A number that no slot reaches which is somebody's: a walk over all of them ends there.
    pub fn bound(&self) -> usize
        ensures { (slot : ℕ) → result ≤ slot → at self.now slot ≡ Free }
    {
        self.slots.capacity()
    }
}

/// Takes a slot out of the list, wherever it stands.
fn unlist(ready: &mut VecDeque<usize>, slot: usize)
    ensures ready { ready.new.items ≡ without ready.old.items slot }
    ensures room { deque_capacity ready.new ≡ deque_capacity ready.old }
{
    ready.retain(|other| *other != slot);
}
