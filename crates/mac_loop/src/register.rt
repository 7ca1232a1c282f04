//! The connections of a daemon, as its threads note them: who came in, and who has gone.

ghost use Rattle.std.specs.Prelude.{◌≡◌, ◌+◌, ◌<◌, ◌++◌, IfOk, OnErr, OnOk};
ghost use Rattle.mac_loop.specs.Ledger.{IsOf, all_books, entered_of, gone_of, name_of};
ghost use Rattle.mac_loop.specs.Leaf.{IsSettled};

use crate::ledger::{Ledger, LedgerBook, LedgerEntry};
use mac_decide::Rights;
use mac_host::{Badge, Socket};
use std::alloc::{AllocError, Global};
use std::marker::{Brand, PhantomData};
use std::snapshot::Snapshot;
use std::sync::Arc;

/// Stands in a type for one daemon's ledger, which is known only once the daemon runs: whoever
/// opens the ledger picks it for [`Brand`] at a call.
pub trait Origin {
    ghost use Rattle.atomic_table.specs.Seated.{TableId};

    ghost ledger: { TableId };
}

impl Origin for Brand {
    ghost use Rattle.mac_loop.specs.NoLedger.{no_ledger};

    ghost ledger = { no_ledger };
}

/// What a connection was admitted as.
#[derive(Drop)]
pub struct Admitted {
    /// Its number among those that were accepted.
    pub number: u64,
    /// Where it came in.
    pub socket: Socket,
    /// What its requests may do. For contracts: it takes no room.
    pub rights: Snapshot<Rights>,
}

/// A connection of this daemon is there: it was admitted, and has not gone.
#[derive(Drop)]
pub struct Presence<O: Origin> {
    entry: LedgerEntry<Admitted>,
    origin: PhantomData<O>,
    ghost of: { entry.seat.table_id ≡ O.ledger },
}

/// Whom a thread of this daemon has admitted, and who has gone there. It takes no room but for a
/// pointer.
#[derive(Drop)]
pub struct Register<O: Origin> {
    ledger: Arc<Ledger<Admitted>, Global>,
    book: LedgerBook<Admitted>,
    origin: PhantomData<O>,
    ghost of: { (name_of ledger.value ≡ O.ledger) × (book.seat.table_id ≡ O.ledger) },
}

/// Whom a daemon admitted, and who has gone, as all its threads noted it. Who has gone had been
/// admitted, each as often at most; the others count as there, also one that was dropped. It takes
/// no room.
#[derive(Drop)]
pub struct Settled {
    book: Snapshot<LedgerBook<Admitted>>,
    ghost settled: { ∥ IsSettled (entered_of book.value) (gone_of book.value) ∥₁ },
}

impl<O: Origin> Register<O> {
    ghost use Rattle.mac_loop.specs.Register.{HasAdmitted, HasSeenOff, IsBegun, IsCalled};
    ghost use Rattle.mac_loop.specs.Register.{StandsForMore, came, parts, went, who};
    ghost use Rattle.mac_loop.specs.Settled.{all_admitted, all_gone};

    /// The register of this ledger, with this book.
    pub fn of(ledger: Arc<Ledger<Admitted>, Global>, book: LedgerBook<Admitted>) -> Register<O>
        requires ledger { name_of ledger.value ≡ O.ledger }
        requires book { IsOf ledger.value book }
        ensures ledger { result.ledger ≡ ledger }
        ensures book { result.book ≡ book }
    {
        Register {
            ledger,
            book,
            origin: PhantomData,
        }
    }

    /// A connection is admitted that is known by this badge, and whose requests may do this.
    pub fn admit(&mut self, badge: Badge, rights: &Rights) -> Presence<O>
        ensures admitted { HasAdmitted self.old (who result) self.new }
        ensures who { IsCalled (who result) badge rights.now }
    {
        let admitted = Admitted {
            number: badge.number,
            socket: badge.socket,
            rights: Snapshot::of(rights),
        };
        let entry = self.ledger.enter(&mut self.book, &admitted);
        Presence {
            entry,
            origin: PhantomData,
        }
    }

    /// A connection has gone.
    pub fn see_off(&mut self, presence: Presence<O>)
        ensures { HasSeenOff self.old (who presence) self.new }
    {
        let Presence { entry, origin: _ } = presence;
        self.ledger.leave(&mut self.book, entry);
    }

    /// Another thread's, where this one stands for more than one.
    pub fn part(&mut self) -> Result<Register<O>, AllocError>
        requires { 1 < parts self.old }
        ensures same { OnErr result (StandsForMore self.old 0 self.new) }
        ensures left { OnOk result (StandsForMore self.new 1 self.old) }
        ensures begun { IfOk result IsBegun }
    {
        let ledger = Arc::try_clone(&self.ledger)?;
        let book = self.ledger.part(&mut self.book);
        Ok(Register {
            ledger,
            book,
            origin: PhantomData,
        })
    }

    /// Another thread's becomes a part of this one.
    pub fn join(&mut self, other: Register<O>)
        ensures ledger { self.new.ledger ≡ self.old.ledger }
        ensures parts { parts self.new ≡ parts self.old + parts other }
        ensures came { came self.new ≡ came self.old ++ came other }
        ensures went { went self.new ≡ went self.old ++ went other }
    {
        let Register {
            ledger: _,
            book,
            origin: _,
        } = other;
        self.ledger.join(&mut self.book, book);
    }

    /// Once all threads' are one again: who was admitted, and who of them has gone.
    pub fn settle(self) -> Settled
        requires { parts self ≡ all_books self.ledger.value }
        ensures admitted { all_admitted result ≡ came self }
        ensures gone { all_gone result ≡ went self }
    {
        let Register {
            ledger,
            mut book,
            origin: _,
        } = self;
        ledger.settle(&mut book);
        Settled {
            book: Snapshot::of(&book),
        }
    }
}
