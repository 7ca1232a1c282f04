//! How many bytes may be taken by several threads together, how many are, and who lacks some.

ghost use Rattle.std.specs.Prelude.{◌≡◌, ◌+◌, ◌-◌, nat_le, if◌then◌else◌};
ghost use Rattle.mac_sockets.specs.Budget.{counted, held_in_want, most_wanted, no_bytes_of};
ghost use Rattle.mac_sockets.specs.Budget.{with_held, with_taken, with_wanted};

use std::marker::Model;

/// How many bytes there are, and how many of them are taken: never more. What is taken for turns
/// and isn't held by connections comes back soon.
#[derive(Drop)]
pub struct Budget {
    most: u64,
    taken: u64,
    // How many bytes connections hold.
    held: u64,
    // The most that anybody wants who lacks it.
    wanted: u64,
}

impl Model for Budget {
    ghost use Rattle.std.specs.Prelude.{◌≤◌};
    ghost use Rattle.mac_sockets.specs.Budget.{Funds};

    ghost Value = { Funds };

    ghost view = { λ b.
        record { most = b.most; taken = b.taken; held = b.held; wanted = b.wanted } };

    ghost invariant = { λ b. b.taken ≤ b.most };
}

impl Budget {
    /// So many bytes, none of which are taken.
    pub fn new(most: u64) -> Budget
        ensures { result ≡ no_bytes_of most }
    {
        Budget {
            most,
            taken: 0,
            held: 0,
            wanted: 0,
        }
    }

    /// Takes so many, where as many are left. Whether that was so.
    pub fn take(&mut self, count: u64) -> bool
        ensures room { result ≡ nat_le (self.old.taken + count) self.old.most }
        ensures taken { self.new ≡ with_taken self.old
            (if result then self.old.taken + count else self.old.taken) }
    {
        if count <= self.most - self.taken {
            self.taken += count;
            return true;
        }
        false
    }

    /// Gives so many back.
    pub fn give(&mut self, count: u64)
        ensures { self.new ≡ with_taken self.old (self.old.taken - count) }
    {
        self.taken = self.taken.saturating_sub(count);
    }

    /// Notes how many bytes the connections of a loop hold, which held so many before.
    pub fn note_held(&mut self, before: u64, now: u64)
        ensures { self.new ≡ with_held self.old (counted self.old.held before now) }
    {
        self.held = self.held.saturating_sub(before).saturating_add(now);
    }

    /// Notes how many bytes a loop lacks, which lacked so many before: of several the most.
    pub fn note_wanted(&mut self, before: u64, now: u64)
        ensures { self.new ≡ with_wanted self.old (most_wanted self.old.wanted before now) }
    {
        let others = if self.wanted == before {
            0
        } else {
            self.wanted
        };
        self.wanted = others.max(now);
    }

    /// How many bytes connections hold, where these leave less than somebody wants.
    pub fn held_in_want(&self) -> Option<u64>
        ensures { result ≡ held_in_want self.now }
    {
        if self.most < self.held.saturating_add(self.wanted) {
            Some(self.held)
        } else {
            None
        }
    }
}
