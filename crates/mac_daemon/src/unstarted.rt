//! The loops of a daemon before they have threads.

ghost use Rattle.std.specs.Prelude.{◌≡◌, ◌+◌, [], IfOk, length};
ghost use Rattle.mac_loop.specs.Ledger.{IsFreshBook, all_books, name_of};
ghost use Rattle.mac_loop.specs.Register.{came, parts, went};

use crate::fault::DaemonFault;
use mac_loop::{
    Admitted, Ledger, LedgerBook, Loop, LoopParts, Loops, Origin, Register, make_loops,
};
use std::alloc::{AllocError, Global};
use std::net::Net;
use std::sync::{Arc, Wait};

/// The loops of a daemon that have no threads yet, and its register, of which each has its part.
#[derive(Drop)]
pub struct Unstarted<O: Origin> {
    pub(crate) loops: Arc<Loops<O>, Global>,
    pub(crate) made: Vec<Box<Loop<O>>>,
    pub(crate) register: Register<O>,
    ghost parted: { parts register + length made.items ≡ all_books register.ledger.value },
    ghost fresh: { (came register ≡ []) × (went register ≡ []) },
}

impl<O: Origin> Unstarted<O> {
    ghost use Rattle.mac_daemon.specs.Unstarted.{count_unstarted};

    /// How many there are.
    pub fn count(&self) -> usize
        ensures { result ≡ count_unstarted self.now }
    {
        self.made.len()
    }

    /// Makes the loops of these parts, and the register from this ledger and its book.
    pub fn make<R: Net + Wait>(
        rt: &R,
        alloc: Global,
        parts: &LoopParts,
        ledger: Arc<Ledger<Admitted>, Global>,
        book: LedgerBook<Admitted>,
    ) -> Result<Unstarted<O>, DaemonFault>
        requires ledger { name_of ledger.value ≡ O.ledger }
        requires books { all_books ledger.value ≡ parts.now.terms.count + 1 }
        requires book { IsFreshBook ledger.value (parts.now.terms.count + 1) book }
        ensures { IfOk result (λ unstarted. count_unstarted unstarted ≡ parts.now.terms.count) }
    {
        let mut register = Register::of(ledger, book);
        let (loops, made) = make_loops(rt, alloc, parts, &mut register)?;
        Ok(Unstarted {
            loops,
            made,
            register,
        })
    }
}

/// A ledger for so many loops and who accepts, and its book.
pub fn open_ledger(
    alloc: Global,
    loops: usize,
) -> Result<(Arc<Ledger<Admitted>, Global>, LedgerBook<Admitted>), AllocError>
    ensures books { IfOk result (λ opened. all_books opened.0.value ≡ loops + 1) }
    ensures book { IfOk result (λ opened. IsFreshBook opened.0.value (loops + 1) opened.1) }
{
    let books = loops.checked_add(1).ok_or(AllocError)?;
    let (ledger, book) = Ledger::open(alloc, books)?;
    Ok((Arc::new(alloc, ledger)?, book))
}
