//! A mark that is set once, and what shows how it was found.

ghost use Rattle.std.specs.Prelude.{◌≡◌, MatchResult};

use atomic_table::{Play, Seat, Table, TableRule};
use mac_order::NoMemory;
use std::alloc::Global;
use std::fmt;
use std::fmt::{Debug, Formatter, Write};
use std::marker::Model;

/// Anybody may look at the mark or set it at any time.
pub struct Anybody;

impl TableRule<(), u64, ()> for Anybody {
    ghost use Rattle.std.specs.Prelude.{⊤};

    ghost holds = { λ key state. ⊤ };

    ghost first = { λ key. 0 };
}

/// A look keeps the number that it found.
pub struct Looks;

impl Play<(), u64> for Looks {
    ghost use Rattle.std.specs.Prelude.{◌≡◌, []};

    ghost then = { λ step before found after. after ≡ (found, []) };
}

/// A step that sets the mark keeps the number that it set.
pub struct Sets;

impl Play<(), u64> for Sets {
    ghost use Rattle.std.specs.Prelude.{◌≡◌, []};

    ghost then = { λ step before found after. after ≡ (step.first, []) };
}

type Mark = Table<(), u64, (), Anybody, Global>;

/// Whether something is closed: 0 while it is open. It never opens again. Contracts see its name.
#[derive(Drop)]
pub struct Closing {
    mark: Mark,
}

impl Model for Closing {
    ghost use Rattle.std.specs.Prelude.{◌≡◌};
    ghost use Rattle.atomic_table.specs.Seated.{TableId, table_id_coded};

    ghost Value = { TableId };

    ghost coded = { table_id_coded };

    ghost view = { λ c. c.mark.shared.table_id };

    ghost invariant = { λ c. c.mark.shared.table_id.words ≡ 1 };
}

/// Shows that what it names was found open: the atomic step that read its mark wrote down a 0.
#[derive(Drop)]
pub struct Open {
    found: Seat<(), u64>,
}

impl Model for Open {
    ghost use Rattle.std.specs.Prelude.{◌≡◌};
    ghost use Rattle.atomic_table.specs.Seated.{TableId, table_id_coded};

    ghost Value = { TableId };

    ghost coded = { table_id_coded };

    ghost view = { λ o. o.found.table_id };

    ghost invariant = { λ o. o.found.me.0 ≡ 0 };
}

/// Shows that what it names is closed: an atomic step found its mark set, or set it, and wrote down
/// what it found or set.
#[derive(Drop)]
pub struct Closed {
    found: Seat<(), u64>,
}

impl Model for Closed {
    ghost use Rattle.std.specs.Prelude.{◌<◌};
    ghost use Rattle.atomic_table.specs.Seated.{TableId, table_id_coded};

    ghost Value = { TableId };

    ghost coded = { table_id_coded };

    ghost view = { λ c. c.found.table_id };

    ghost invariant = { λ c. 0 < c.found.me.0 };
}

impl Debug for Open {
    fn fmt<W: Write>(&self, f: &mut Formatter<W>) -> fmt::Result {
        f.write_str("Open")
    }
}

impl Debug for Closed {
    fn fmt<W: Write>(&self, f: &mut Formatter<W>) -> fmt::Result {
        f.write_str("Closed")
    }
}

impl Closing {
    /// Open so far.
    pub fn new(alloc: Global) -> Result<Closing, NoMemory> {
        let (mark, _) = Table::of_words(alloc, &[0], &())?;
        Ok(Closing { mark })
    }

    /// Closes.
    pub fn close(&self) -> Closed
        ensures { result ≡ self.now }
    {
        let (_, found) = self.mark.shared.swap_new_seat::<Sets>(0, 1);
        Closed { found }
    }

    /// That it is open, or that it is closed.
    pub fn look(&self) -> Result<Open, Closed>
        ensures { MatchResult result (λ found. found ≡ self.now) (λ closed. closed ≡ self.now) }
    {
        let (number, found) = self.mark.shared.load_new_seat::<Looks>(0);
        if number == 0 {
            Ok(Open { found })
        } else {
            Err(Closed { found })
        }
    }
}
