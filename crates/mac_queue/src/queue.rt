//! The queue: tickets wait here for workers, and each that was put is claimed once or still there.

ghost use Rattle.std.specs.Prelude.{◌≡◌, ◌≢◌, ◌+◌, ◌-◌, ◌≤◌, ◌<◌, ◌^◌, [], length, IfErr, IfOk, OnOk, OnErr};
ghost use Rattle.mac_queue.specs.Balance.{account, entry_of};
ghost use Rattle.mac_queue.specs.Fault.{IsSoFound};
ghost use Rattle.mac_queue.specs.Claim.{after_claim, IsSoClaimed};
ghost use Rattle.mac_queue.specs.Pass.{with_put, AreFresh};
ghost use Rattle.crossbeam_queue.specs.Passes.{view as what, IsPassOf};

use self::account::{Balance, Books, Claims, CutOff, Puts};
use crate::bell::{AnnouncedWait, Bell};
use crate::closing::{Closed, Closing, Open};
use crate::fault::PutFault;
use crate::ticket::Ticket;
use crossbeam_queue::protocol::Free;
use crossbeam_queue::{Pass, RuledArrayQueue};
use mac_order::{NoMemory, Service};
use std::alloc::Global;
use std::marker::Model;
use std::sync::Wait;
use std::sync::atomic::AtomicU64;
use std::sync::atomic::Ordering::SeqCst;

mod account;
mod tally;

pub use tally::Tally;

/// The most tickets that the queue holds.
pub const QUEUE_MAX: usize = 8192;

/// The passes of a queue: 16 for workers and 64 for desks.
pub const PASSES: usize = 80;

/// The most tickets that one pass puts.
pub const PUTS_MAX: u64 = 1 << 55;

pub type Cells<S> = RuledArrayQueue<Ticket<S>, Books<S>, Balance>;

pub type Seat<S> = Pass<Ticket<S>, Books<S>>;

/// Tickets wait here, at most 8,192, for the workers. Contracts see its names.
#[derive(Drop)]
pub struct Queue<S: Service> {
    cells: Cells<S>,
    // Workers that find no ticket sleep on it.
    tickets: Bell,
    workers: AtomicU64,
    closing: Closing,
}

impl<S: Service> Model for Queue<S> {
    ghost use Rattle.std.specs.Prelude.{◌≡◌};
    ghost use Rattle.mac_queue.specs.Line.{Line, line_code};

    ghost Value = { Line };

    ghost coded = { line_code };

    ghost view = { λ l.
        record { tickets = l.cells.table.shared.table_id; closing = l.closing } };

    ghost use Rattle.crossbeam_queue.specs.Passes.{ruled_capacity};
    ghost use Rattle.mac_queue.specs.declared.queue.TheConstants.{QUEUE_MAX};

    ghost invariant = { λ l. ruled_capacity l.cells ≡ QUEUE_MAX };
}

/// The right to put and to claim, one of the 80 of a queue. It keeps for contracts what it has put
/// and claimed, at no cost.
#[derive(Drop)]
pub struct QueuePass<S: Service> {
    seat: Seat<S>,
    number: usize,
    puts: u64,
}

impl<S: Service> Model for QueuePass<S> {
    ghost use Rattle.std.specs.Prelude.{◌≡◌, ◌≤◌, ◌<◌, [], length};
    ghost use Rattle.crossbeam_queue.specs.Passes.{view as what};
    ghost use Rattle.mac_queue.specs.Pass.{Pass, pass_code};
    ghost use Rattle.mac_queue.specs.declared.queue.TheConstants.{PASSES, PUTS_MAX};

    ghost Value = { Pass S.Job };

    ghost coded = { pass_code S.Job.code };

    ghost view = { λ p. record {
      queue = p.seat.table_id;
      seat = p.seat.id;
      number = p.number;
      put = (what p.seat).put;
      claimed = (what p.seat).claimed;
    } };

    ghost invariant = { λ p. (p.seat.me.1 ≡ [])
        × ((what p.seat).parts ≡ 1)
        × (p.puts ≡ length (what p.seat).put)
        × (p.puts ≤ PUTS_MAX)
        × (p.number < PASSES) };
}

impl<S: Service> QueuePass<S> {
    /// The number of the pass, from 0 on.
    pub fn number(&self) -> usize
        ensures number { result ≡ self.now.number }
        ensures below { result < PASSES }
    {
        self.number
    }
}

/// What came of a claim.
#[derive(Drop)]
pub enum Claim<S: Service> {
    /// The oldest ticket.
    Got(Ticket<S>),
    /// The queue was open, as this shows, and held no ticket after that was seen.
    Empty(Open),
    /// The queue was closed, as this shows, and held no ticket after that was seen.
    Closed(Closed),
}

impl<S: Service> Queue<S> {
    /// An open, empty queue with its passes. Takes all the memory that the queue ever takes.
    pub fn new(alloc: Global) -> Result<(Queue<S>, Vec<QueuePass<S>>), NoMemory>
        ensures count { IfOk result (λ r. length r.1.items ≡ PASSES) }
        ensures fresh { IfOk result (λ r. AreFresh r.0.tickets r.1.items) }
    {
        let (cells, seat) = Cells::ruled(alloc, QUEUE_MAX)?;
        let passes = passes_of(alloc, &cells, seat)?;
        let queue = Queue {
            cells,
            tickets: Bell::new(),
            workers: AtomicU64::new(0),
            closing: Closing::new(alloc)?,
        };
        Ok((queue, passes))
    }

    /// Puts the ticket at the end, and wakes a worker that sleeps. What shows that the queue was
    /// found open before.
    pub fn put<R: Wait>(
        &self,
        rt: &R,
        pass: &mut QueuePass<S>,
        ticket: Ticket<S>,
    ) -> Result<Open, (PutFault, Ticket<S>)>
        requires { pass.old.queue ≡ self.now.tickets }
        ensures put { OnOk result (pass.new ≡ with_put pass.old (entry_of ticket)) }
        ensures was_open { IfOk result (λ found. found ≡ self.now.closing) }
        ensures same { OnErr result (pass.new ≡ pass.old) }
        ensures found { IfErr result (λ e. IsSoFound self.now.closing e.0) }
        ensures back { IfErr result (λ e. e.1 ≡ ticket) }
        ensures fault { IfErr result (λ e. e.0 ≢ PutFault.NoMemory) }
        ensures spent { IfErr result (λ e. e.0 ≡ PutFault.Spent
            → length pass.old.put ≡ PUTS_MAX) }
    {
        let found = match self.closing.look() {
            Ok(found) => found,
            Err(found) => return Err((PutFault::Closed(found), ticket)),
        };
        if pass.puts >= PUTS_MAX {
            return Err((PutFault::Spent, ticket));
        }
        if let Err(ticket) = self.cells.push_as::<Puts, R>(rt, &mut pass.seat, ticket) {
            return Err((PutFault::Full(found), ticket));
        }
        pass.puts += 1;
        self.tickets.ring();
        Ok(found)
    }

    /// Claims the oldest ticket.
    pub fn claim<R: Wait>(&self, rt: &R, pass: &mut QueuePass<S>) -> Claim<S>
        requires { pass.old.queue ≡ self.now.tickets }
        ensures claimed { pass.new ≡ after_claim pass.old result }
        ensures found { IsSoClaimed self.now result }
        ensures few { length pass.old.claimed < length pass.new.claimed →
            length pass.new.claimed < 2 ^ 62 }
    {
        let looked = self.closing.look();
        match self.cells.pop_as::<Claims, R>(rt, &mut pass.seat) {
            Some(ticket) => Claim::Got(ticket),
            None => match looked {
                Ok(found) => Claim::Empty(found),
                Err(found) => Claim::Closed(found),
            },
        }
    }

    /// How many tickets wait in the queue.
    pub fn waiting<R: Wait>(&self, rt: &R, pass: &mut QueuePass<S>) -> usize
        requires { pass.old.queue ≡ self.now.tickets }
        ensures same { pass.new ≡ pass.old }
        ensures few { result ≤ QUEUE_MAX }
    {
        self.cells.len_as::<Free, R>(rt, &mut pass.seat)
    }

    /// Announces a wait for a ticket. Claim once more after it, and then sleep, or withdraw where
    /// there was a ticket or the queue is closed.
    pub fn announce(&self) -> AnnouncedWait {
        self.tickets.announce()
    }

    /// Sleeps until a ring after the announcement. It may return for no reason: claim again.
    pub fn sleep<R: Wait>(&self, rt: &R, notice: AnnouncedWait) {
        self.tickets.sleep(rt, notice);
    }

    /// Ends a wait that found something.
    pub fn withdraw(&self, notice: AnnouncedWait) {
        self.tickets.withdraw(notice);
    }

    /// Wakes a worker that sleeps, if one does.
    pub fn ring(&self) {
        self.tickets.ring();
    }

    /// A worker comes, and is one of [`Queue::workers`] until it leaves.
    pub fn enter(&self) {
        self.workers.fetch_add(1, SeqCst);
    }

    /// A worker leaves.
    pub fn leave(&self) {
        self.workers.fetch_sub(1, SeqCst);
    }

    /// How many workers share the queue.
    pub fn workers(&self) -> u64 {
        self.workers.load(SeqCst)
    }

    /// Closes the queue to further tickets, and wakes all who sleep. Those that are in stay.
    pub fn close(&self) -> Closed
        ensures { result ≡ self.now.closing }
    {
        let closed = self.closing.close();
        self.tickets.ring_all();
        closed
    }
}

/// Cuts the first seat of a queue into those of all passes.
fn passes_of<S: Service>(
    alloc: Global,
    cells: &Cells<S>,
    mut rest: Seat<S>,
) -> Result<Vec<QueuePass<S>>, NoMemory>
    requires { IsPassOf cells.now rest × (what rest ≡ account PASSES [] []) }
    ensures count { IfOk result (λ passes. length passes.items ≡ PASSES) }
    ensures fresh { IfOk result (λ passes. AreFresh cells.now.table.shared.table_id passes.items) }
{
    let mut passes = Vec::with_capacity(alloc, PASSES)?;
    for number in 0..PASSES - 1 {
        let seat = cells.another::<CutOff>(&mut rest);
        passes.push(QueuePass {
            seat,
            number,
            puts: 0,
        })?;
    }
    passes.push(QueuePass {
        seat: rest,
        number: PASSES - 1,
        puts: 0,
    })?;
    Ok(passes)
}
