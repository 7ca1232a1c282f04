//! The reorder buffer: answers wait by their places until their turn.

ghost use Rattle.std.specs.Prelude.{◌≡◌, ◌%◌, IfOk, OnOk, IfErr, OnErr, MatchResult, replicate, false, ◌<◌, drop, length, IsSome, IfSome, ◌+◌, ◌≤◌};
ghost use Rattle.std.specs.Option.{option_copied};
ghost use Rattle.std.specs.FinMap.{get};
ghost use Rattle.mac_order.specs.Buffer.{Buffer, fresh_buffer, open_fault, place_to_open, opened, settle_fault, settled, next_of, closed_off, sent_off, IsBounded};

use crate::answer::Answer;
use crate::fault::{OpenFault, SettleFault};
use crate::next::Next;
use crate::service::{NoMemory, Service};
use std::alloc::Global;
use std::collections::VecDeque;
use std::marker::Model;

/// The slots of a reorder buffer, and the most places of a connection that are unsent.
pub const SLOTS: usize = 128;

/// Replies put back into the order of arrivals: answers come for places in any order, and leave by
/// place.
#[derive(Drop)]
pub struct Reorder<S: Service> {
    next: u64,
    slips: VecDeque<S::Job>,
    answers: Vec<Option<Answer<S>>>,
    closed: bool,
}

impl<S: Service> Model for Reorder<S> {
    ghost use Rattle.mac_order.specs.Buffer.{Buffer};
    ghost use Rattle.mac_order.specs.Stored.{buffer_code};

    ghost Value = { Buffer S.Job };

    ghost coded = { buffer_code S.Job.code };

    ghost use Rattle.mac_order.specs.Slots.{lies_as, IsLaidOut};
    ghost use Rattle.std.specs.VecDeque.{deque_capacity};

    ghost view = { λ r. lies_as r.next r.slips.items r.answers.items r.closed };

    ghost invariant = { λ r.
        IsLaidOut r.next r.slips.items (deque_capacity r.slips) r.answers.items r.closed };
}

impl<S: Service> Reorder<S> {
    /// An open buffer that begins at place 0. Takes all the memory that the buffer ever takes.
    pub fn new(alloc: Global) -> Result<Reorder<S>, NoMemory>
        ensures { IfOk result (λ buffer. buffer ≡ fresh_buffer) }
    {
        Ok(Reorder {
            next: 0,
            slips: VecDeque::with_capacity(alloc, SLOTS)?,
            answers: empty_slots(alloc)?,
            closed: false,
        })
    }

    /// Opens the job at the next place, and gives the place.
    pub fn open(&mut self, job: S::Job) -> Result<u64, (OpenFault, S::Job)>
        ensures fault { MatchResult result
            (λ place. open_fault self.old ≡ None) (λ e. open_fault self.old ≡ Some e.0) }
        ensures place { IfOk result (λ place. place ≡ place_to_open self.old) }
        ensures opened { OnOk result (self.new ≡ opened self.old job) }
        ensures refused { OnErr result (self.new ≡ self.old) }
        ensures back { IfErr result (λ e. e.1 ≡ job) }
        ensures bounded { IsBounded self.new }
    {
        if let Some(fault) = self.open_fault() {
            return Err((fault, job));
        }
        let place = self.next + self.slips.len() as u64;
        self.slips.push_back_reserved(job);
        Ok(place)
    }

    /// Why no job can be opened now, if so.
    fn open_fault(&self) -> Option<OpenFault>
        ensures { result ≡ open_fault self.now }
    {
        if self.slips.len() >= SLOTS {
            Some(OpenFault::Full)
        } else if self.closed {
            Some(OpenFault::Closed)
        } else if self.next + self.slips.len() as u64 == u64::MAX {
            Some(OpenFault::Last)
        } else {
            None
        }
    }

    /// Puts the answer at its place, which may be open or not.
    pub fn settle(&mut self, place: u64, answer: Answer<S>) -> Result<(), (SettleFault, Answer<S>)>
        ensures fault { MatchResult result (λ _. settle_fault self.old place ≡ None)
            (λ e. settle_fault self.old place ≡ Some e.0) }
        ensures settled { OnOk result (self.new ≡ settled self.old place answer) }
        ensures refused { OnErr result (self.new ≡ self.old) }
        ensures back { IfErr result (λ e. e.1 ≡ answer) }
        ensures bounded { IsBounded self.new }
    {
        if let Some(fault) = self.settle_fault(place) {
            return Err((fault, answer));
        }
        self.answers[slot_of(place)] = Some(answer);
        Ok(())
    }

    /// Why no answer can be settled at the place now, if so.
    fn settle_fault(&self, place: u64) -> Option<SettleFault>
        ensures { result ≡ settle_fault self.now place }
    {
        if self.closed {
            Some(SettleFault::Closed)
        } else if place < self.next {
            Some(SettleFault::Old)
        } else if place - self.next >= SLOTS as u64 {
            Some(SettleFault::TooFar)
        } else if self.answer_at(place).is_some() {
            Some(SettleFault::Twice)
        } else {
            None
        }
    }

    /// Sends the reply of the next place, where it is open and its answer is there.
    pub fn next(&mut self) -> Next<S>
        ensures next { (result, self.new) ≡ next_of S.Job.eq S.reply_to self.old }
        ensures bounded { IsBounded self.new }
    {
        if self.closed {
            return Next::Closed;
        }
        let place = self.next;
        let Some(slip) = self.slips.front() else {
            return Next::Waiting;
        };
        let Some(answer) = self.answer_at(place) else {
            return Next::Waiting;
        };
        if !answer.is_to(slip) {
            self.close();
            return Next::Stranger(place);
        }
        self.send()
    }

    /// The answer that waits at a place of the window.
    fn answer_at(&self, place: u64) -> Option<&Answer<S>>
        requires live { self.now.closed ≡ false }
        requires from { self.now.next ≤ place }
        requires to { place < self.now.next + SLOTS }
        ensures { option_copied result ≡ get self.now.answers place }
    {
        self.answers[slot_of(place)].as_ref()
    }

    /// Sends the reply of the next place, which is open and has its answer.
    fn send(&mut self) -> Next<S>
        requires live { self.old.closed ≡ false }
        requires settled { IsSome (get self.old.answers self.old.next) }
        requires slip { 0 < length self.old.slips }
        ensures next { IfSome (get self.old.answers self.old.next)
            (λ answer. result ≡ Next.Reply self.old.next (S.reply_to answer)) }
        ensures sent { self.new ≡ sent_off self.old (drop 1 self.old.slips) }
        ensures bounded { IsBounded self.new }
    {
        let place = self.next;
        match self.answers[slot_of(place)].take() {
            Some(answer) => {
                let _ = self.slips.pop_front();
                self.next += 1;
                Next::Reply(place, answer.into_reply())
            }
            None => unreachable!(),
        }
    }

    /// How many jobs are open, of those whose replies were not sent.
    pub fn open_slips(&self) -> usize
        ensures slips { result ≡ length self.now.slips }
        ensures bounded { IsBounded self.now }
    {
        self.slips.len()
    }

    /// The place whose reply is sent next.
    pub fn next_place(&self) -> u64
        ensures place { result ≡ self.now.next }
        ensures bounded { IsBounded self.now }
    {
        self.next
    }

    /// Whether the buffer is closed.
    pub fn is_closed(&self) -> bool
        ensures { result ≡ self.now.closed }
    {
        self.closed
    }

    /// Closes the buffer, and drops its slips and answers.
    pub fn close(&mut self)
        ensures closed { self.new ≡ closed_off self.old }
        ensures bounded { IsBounded self.new }
    {
        self.slips.clear();
        self.answers.clear();
        self.closed = true;
    }
}

/// A slot for each place of the window, with nothing in it.
fn empty_slots<S: Service>(alloc: Global) -> Result<Vec<Option<Answer<S>>>, NoMemory>
    ensures { IfOk result (λ slots. slots.items ≡ replicate SLOTS None) }
{
    let mut slots = Vec::with_capacity(alloc, SLOTS)?;
    for _ in 0..SLOTS {
        slots.push(None)?;
    }
    Ok(slots)
}

/// The slot of a place.
fn slot_of(place: u64) -> usize
    ensures { result ≡ place % SLOTS }
{
    (place % SLOTS as u64) as usize
}
