//! A ledger: what came in at some thread, and what of it went out at any.

ghost use Rattle.std.specs.Prelude.{◌≡◌, ◌<◌, [], ◌∷◌, IfOk};
ghost use Rattle.mac_loop.specs.Leaf.{IsSettled, leaf};

use atomic_table::{Join, Play, Seat, Split, Table, TableRule};
use std::alloc::{AllocError, Global};
use std::collections::LinkedList;
use std::snapshot::Snapshot;

/// What a book or an entry knows. No value is made.
pub struct Leaf<T> {
    pub books: usize,
    pub entered: LinkedList<T>,
    pub gone: LinkedList<T>,
    pub there: LinkedList<T>,
}

/// What came in is what has gone together with what is there.
pub struct InBalance;

impl<T> TableRule<T, Leaf<T>, usize> for InBalance {
    ghost use Rattle.std.specs.Prelude.{[]};
    ghost use Rattle.mac_loop.specs.Leaf.{IsBalanced, leaf};

    ghost holds = { λ books state. IsBalanced books state.views };

    ghost first = { λ books. leaf books [] [] [] };
}

/// One more comes in.
pub struct Enters;

impl<T> Play<T, Leaf<T>> for Enters {
    ghost use Rattle.std.specs.Prelude.{◌≡◌, [], ◌∷◌, ◌++◌};
    ghost use Rattle.mac_loop.specs.Leaf.{leaf, told};

    ghost then = { λ step before found after. after
        ≡ (
          leaf before.0.books (before.0.entered ++ told step.said) before.0.gone
              (before.0.there ++ told step.said),
          [],
        ) };
}

/// An entry is cut off for what is there.
pub struct Issues;

impl<T> Split<Leaf<T>> for Issues {
    ghost use Rattle.std.specs.Prelude.{[]};
    ghost use Rattle.mac_loop.specs.Leaf.{leaf};

    ghost left = { λ a. leaf a.books a.entered a.gone [] };

    ghost right = { λ a. leaf 0 [] [] a.there };
}

/// What an entry stands for goes.
pub struct Goes;

impl<T> Join<Leaf<T>> for Goes {
    ghost use Rattle.std.specs.Prelude.{◌++◌, []};
    ghost use Rattle.mac_loop.specs.Leaf.{leaf};

    ghost both = { λ a b. leaf a.books a.entered (a.gone ++ b.there) a.there };

    ghost spent = { leaf 0 [] [] [] };
}

/// A book is cut off.
pub struct Cuts;

impl<T> Split<Leaf<T>> for Cuts {
    ghost use Rattle.std.specs.Prelude.{◌-◌, []};
    ghost use Rattle.mac_loop.specs.Leaf.{leaf};

    ghost left = { λ a. leaf (a.books - 1) a.entered a.gone a.there };

    ghost right = { λ a. leaf 1 [] [] [] };
}

/// A book takes in another one.
pub struct Sums;

impl<T> Join<Leaf<T>> for Sums {
    ghost use Rattle.std.specs.Prelude.{◌+◌, ◌++◌, []};
    ghost use Rattle.mac_loop.specs.Leaf.{leaf};

    ghost both = { λ a b. leaf (a.books + b.books) (a.entered ++ b.entered) (a.gone ++ b.gone)
        a.there };

    ghost spent = { leaf 0 [] [] [] };
}

/// What all books together tell.
pub struct Settles;

impl<T> Play<T, Leaf<T>> for Settles {
    ghost use Rattle.std.specs.Prelude.{◌≡◌};
    ghost use Rattle.mac_loop.specs.Leaf.{IsSettled};

    ghost then = { λ step before found after. (after ≡ before)
        × IsSettled before.0.entered before.0.gone };
}

type Leaves<T> = Table<T, Leaf<T>, usize, InBalance, Global>;

/// What came in and what has gone. It is told by books, one of each thread, and by an entry for
/// each that is there. These take no room. What comes in costs two steps on one word, and what goes
/// one.
#[derive(Drop)]
pub struct Ledger<T> {
    leaves: Leaves<T>,
    ghost word: { leaves.shared.table_id.words ≡ 1 },
}

/// What came in at a thread, and what went out there. Before threads have theirs, one stands for
/// all books.
#[derive(Drop)]
pub struct LedgerBook<T> {
    seat: Seat<T, Leaf<T>>,
    ghost none: { seat.me.1 ≡ [] },
    ghost nothing: { seat.me.0.there ≡ [] },
    ghost some: { 0 < seat.me.0.books },
}

/// It came in, and has not gone.
#[derive(Drop)]
pub struct LedgerEntry<T> {
    seat: Seat<T, Leaf<T>>,
    entry: Snapshot<T>,
    ghost there: { seat.me ≡ (leaf 0 [] [] (entry.value ∷ []), []) },
}

impl<T> Ledger<T> {
    ghost use Rattle.mac_loop.specs.Ledger.{HasEntered, HasJoined, HasLeft, HasParted};
    ghost use Rattle.mac_loop.specs.Ledger.{IsEntryOf, IsFreshBook, IsOf};
    ghost use Rattle.mac_loop.specs.Ledger.{all_books, books_of, entered_of, gone_of};

    /// A ledger of so many books, all of which are one.
    pub fn open(alloc: Global, books: usize) -> Result<(Ledger<T>, LedgerBook<T>), AllocError>
        requires { 0 < books }
        ensures ledger { IfOk result (λ r. all_books r.0 ≡ books) }
        ensures book { IfOk result (λ r. IsFreshBook r.0 books r.1) }
    {
        let (leaves, seat) = Leaves::of_words(alloc, &[0], &books)?;
        Ok((Ledger { leaves }, LedgerBook { seat }))
    }

    /// One comes in, by this book.
    pub fn enter(&self, book: &mut LedgerBook<T>, entry: &T) -> LedgerEntry<T>
        requires { IsOf self.now book.old }
        ensures entered { HasEntered book.old entry.now book.new }
        ensures there { IsEntryOf self.now result }
        ensures entry { result.entry.value ≡ entry.now }
    {
        let shared = &self.leaves.shared;
        shared.compare_exchange_with::<Enters>(&mut book.seat, 0, 0, 0, entry);
        let seat = shared.split_seat::<Issues>(&mut book.seat);
        LedgerEntry {
            seat,
            entry: Snapshot::of(entry),
        }
    }

    /// One that is there goes, by this book.
    pub fn leave(&self, book: &mut LedgerBook<T>, entry: LedgerEntry<T>)
        requires { IsOf self.now book.old × IsEntryOf self.now entry }
        ensures { HasLeft book.old entry.entry.value book.new }
    {
        let LedgerEntry { seat, entry: _ } = entry;
        let shared = &self.leaves.shared;
        shared.join_seat::<Goes>(&mut book.seat, seat);
    }

    /// Another thread's book, where this one stands for more than one.
    pub fn part(&self, book: &mut LedgerBook<T>) -> LedgerBook<T>
        requires of { IsOf self.now book.old }
        requires more { 1 < books_of book.old }
        ensures left { HasParted book.old book.new }
        ensures fresh { IsFreshBook self.now 1 result }
    {
        let seat = self.leaves.shared.split_seat::<Cuts>(&mut book.seat);
        LedgerBook { seat }
    }

    /// Another book becomes a part of this one.
    pub fn join(&self, book: &mut LedgerBook<T>, other: LedgerBook<T>)
        requires { IsOf self.now book.old × IsOf self.now other }
        ensures { HasJoined book.old other book.new }
    {
        let LedgerBook { seat } = other;
        let shared = &self.leaves.shared;
        shared.join_seat::<Sums>(&mut book.seat, seat);
    }

    /// Once all books are one again: what has gone had come in, each as often at most.
    pub fn settle(&self, book: &mut LedgerBook<T>)
        requires of { IsOf self.now book.old }
        requires all { books_of book.old ≡ all_books self.now }
        ensures same { book.new ≡ book.old }
        ensures settled { IsSettled (entered_of book.old) (gone_of book.old) }
    {
        self.leaves.shared.load::<Settles>(&mut book.seat, 0);
    }
}
