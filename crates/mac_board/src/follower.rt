//! Who takes the table that is up.

ghost use Rattle.std.specs.Prelude.{◌≡◌, slice_get, Some, true};
ghost use Rattle.std.specs.Arc.{arc_value};
ghost use Rattle.mac_board.specs.Board.{known_by, seen_by};
ghost use Rattle.mac_board.specs.Follows.{Advances};

use crate::issue::{Issue, Posted, Seen};
use crate::lookout::Lookout;
use crate::tables::Tables;
use left_right::reader::Factory;
use mac_keys::KeyTable;
use std::alloc::{AllocError, Global};
use std::sync::Arc;
use std::sync::atomic::AtomicU64;

/// What makes followers of a board, for a thread or a connection that begins. Threads may share it.
#[derive(Drop)]
pub struct Followers {
    factory: Factory<Issue, Seen, Posted>,
    last: Arc<AtomicU64, Global>,
}

impl Followers {
    /// Followers of the board of this factory, the last number on which is this.
    pub(crate) fn new(
        factory: Factory<Issue, Seen, Posted>,
        last: Arc<AtomicU64, Global>,
    ) -> Followers {
        Followers { factory, last }
    }

    /// A follower, which has the table that is up. It is an error where the publisher has ended,
    /// where there are as many followers as the board has room for, or where memory ran out.
    pub fn follower(&self) -> Result<Follower, AllocError> {
        let reader = self.factory.reader()?;
        let last = Arc::try_clone(&self.last)?;
        Follower::new(Lookout::new(reader, last))
    }
}

/// Has the table that was up when it looked last.
#[derive(Drop)]
pub struct Follower {
    lookout: Lookout,
    table: Arc<KeyTable, Global>,
    number: u64,
    ghost known: { slice_get (seen_by lookout) number ≡ Some (arc_value table) },
}

impl Follower {
    /// A follower that has looked once.
    fn new(mut lookout: Lookout) -> Result<Follower, AllocError> {
        let Some(found) = lookout.enter() else {
            return Err(AllocError);
        };
        let Issue { table, number } = found;
        Ok(Follower {
            lookout,
            table,
            number,
        })
    }

    /// Takes the table that is up, if it can be had.
    fn take_up(&mut self)
        ensures { Advances (known_by self.old.lookout self.old.number)
            (known_by self.new.lookout self.new.number) }
    {
        if let Some(found) = self.lookout.enter() {
            let Issue { table, number } = found;
            self.table = table;
            self.number = number;
        }
    }
}

impl Tables for Follower {
    ghost tells = { true };

    ghost known = { λ f. known_by f.lookout f.number };

    /// One load where no newer table is up.
    fn look(&mut self) {
        if let Some(found) = self.lookout.look(self.number) {
            let Issue { table, number } = found;
            self.table = table;
            self.number = number;
        }
    }

    /// No load where it has come as far.
    fn reach(&mut self, place: u64) -> bool {
        if self.number < place {
            self.take_up();
        }
        place <= self.number
    }

    fn place(&self) -> u64 {
        self.number
    }

    fn table(&self) -> &KeyTable {
        &self.table
    }
}
