//! The passes of a pool: each in a slot of its own, where it is at home.

ghost use Rattle.std.specs.Prelude.{◌≡◌, ◌+◌, ◌≤◌, ◌<◌, ◌++◌, Some, None, IfOk, MatchOption, map, length, slice_get, slice_set};
ghost use Rattle.mac_pool.specs.Pool.{IsHome, AreOut, at_home};
ghost use Rattle.std.specs.Vec.{vec_capacity};

use mac_order::{NoMemory, Service};
use mac_queue::{PASSES, QueuePass};
use std::alloc::Global;

pub(crate) type Slots<S> = Vec<Option<QueuePass<S>>>;

/// The first pass at home from one number up to another.
pub(crate) fn first_home<S: Service>(slots: &Slots<S>, from: usize, to: usize) -> Option<usize>
    requires { (from ≤ to) × (to ≤ length slots.now.items) }
    ensures { MatchOption result (AreOut from to slots.now.items)
        (λ number. (from ≤ number) × (number < to) × IsHome number slots.now.items) }
{
    for number in from..to {
        match &slots[number] {
            Some(_) => return Some(number),
            None => {}
        }
    }
    None
}

/// Takes the pass of this number out.
pub(crate) fn take_out<S: Service>(slots: &mut Slots<S>, number: usize) -> QueuePass<S>
    requires home { IsHome number slots.old.items }
    ensures was { slice_get slots.old.items number ≡ Some (Some result) }
    ensures out { slots.new.items ≡ slice_set slots.old.items number None }
{
    match slots[number].take() {
        Some(pass) => pass,
        None => unreachable!(),
    }
}

/// How many passes are at home.
pub(crate) fn home_count<S: Service>(slots: &Slots<S>) -> usize
    ensures { result ≡ length (at_home slots.now.items) }
{
    let mut count = 0;
    for slot in slots {
        match slot {
            Some(_) => count += 1,
            None => {}
        }
    }
    count
}

/// Keeps the passes that are at home.
pub(crate) fn bring_home<S: Service>(slots: Slots<S>, all: &mut Vec<QueuePass<S>>)
    requires room { length all.old.items + length (at_home slots.items) ≤ vec_capacity all.old }
    ensures { all.new.items ≡ all.old.items ++ at_home slots.items }
{
    for slot in slots {
        if let Some(pass) = slot {
            all.push_reserved(pass);
        }
    }
}

/// Each pass in a slot of its own.
pub(crate) fn slots_of<S: Service>(
    alloc: Global,
    passes: Vec<QueuePass<S>>,
) -> Result<Slots<S>, NoMemory>
    ensures { IfOk result (λ slots. slots.items ≡ map Some passes.items) }
{
    let mut slots = Vec::with_capacity(alloc, PASSES)?;
    for pass in passes {
        slots.push(Some(pass))?;
    }
    Ok(slots)
}
