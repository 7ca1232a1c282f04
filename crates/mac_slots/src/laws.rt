//! What holds of slots and their list as a whole.

ghost use Rattle.std.specs.Prelude.{◌≡◌, ◌≢◌, ◌≤◌, ◌<◌, ℕ, List, ◌∷◌};
ghost use Rattle.mac_slots.specs.Slots.{Slots as Seen, Free, at, times, with_listed, without};

use crate::slots::Slots;

/// A slot is ready once at most, and a free one never.
pub fn a_slot_is_listed_once<C: Drop>(slots: &Slots<C>, slot: usize)
    ensures once { times slot slots.now.ready ≤ 1 }
    ensures free { at slots.now slot ≡ Free → times slot slots.now.ready ≡ 0 }
{
    let _ = slots.is_listed(slot);
}

/// A slot of somebody's that is listed is ready, and whoever was ready is so still.
pub fn who_is_listed_is_ready<C>()
    ensures ready { (s : Seen C) (slot : ℕ) → at s slot ≢ Free
        → 0 < times slot (with_listed s slot).ready }
    ensures others { (s : Seen C) (slot other : ℕ)
        → times other s.ready ≤ times other (with_listed s slot).ready }
{}

/// A slot that is released is in the list no more, and whoever else was ready is so still.
pub fn who_left_is_in_no_list()
    ensures left { (ready : List ℕ) (slot : ℕ) → times slot (without ready slot) ≡ 0 }
    ensures others { (ready : List ℕ) (slot other : ℕ) → other ≢ slot →
        times other (without ready slot) ≡ times other ready }
{}
