//! The end of a ring that releases replies.

ghost use Rattle.std.specs.Prelude.{◌≡◌, ◌<◌, ◌++◌, ◌↔◌, true, [], length, map, IsTrue, IsFalse, OnOk, OnErr, IfErr, MatchResult, None, Some};
ghost use Rattle.rtrb.specs.Ring as ring;
ghost use Rattle.mac_order.specs.Buffer.{fresh_buffer, settle_fault, settled, next_of, closed_off};
ghost use Rattle.mac_order.specs.Ring.{received, waiting, released, may_look, Takes, Rests, Looks, IsKept, Releases, replied};

use crate::answer::Answer;
use crate::fault::SettleFault;
use crate::next::Next;
use crate::numbered::Numbered;
use crate::reorder::Reorder;
use crate::service::Service;
use rtrb::Consumer;
use std::alloc::Global;
use std::marker::Model;

/// The most slips that an outlet has open.
pub const OPEN_SLIPS_MAX: usize = 64;

/// The end of a ring that releases replies. It moves to the thread that writes them. Contracts see
/// its end of the ring and its reorder buffer.
#[derive(Drop)]
pub struct Outlet<S: Service> {
    pub(crate) consumer: Consumer<S::Job, Global, Numbered>,
    pub(crate) buffer: Reorder<S>,
}

impl<S: Service> Model for Outlet<S> {
    ghost use Rattle.std.specs.declared.alloc.Global.{Global};
    ghost use Rattle.mac_order.specs.declared.numbered.Numbered.{Numbered};
    ghost use Rattle.std.specs.Coded.{codes};
    ghost use Rattle.mac_order.specs.Stored.{buffer_code};
    ghost use Rattle.mac_order.specs.Ring.{Exit, IsKept};
    ghost use Rattle.mac_order.specs.RingStored.{exit_code};

    ghost Value = { Exit S.Job Global Numbered };

    ghost coded = { exit_code (Prim.hlevel codes) (buffer_code S.Job.code) };

    ghost view = { λ outlet. record { ring = outlet.consumer; buffer = outlet.buffer } };

    ghost invariant = { λ outlet.
        IsKept (record { ring = outlet.consumer; buffer = outlet.buffer }) };
}

impl<S: Service> Outlet<S> {
    /// The end that pops from a new ring, with a new buffer.
    pub(crate) fn new(consumer: Consumer<S::Job, Global, Numbered>, buffer: Reorder<S>) -> Outlet<S>
        requires empty { ring.received consumer ≡ [] }
        requires fresh { buffer ≡ fresh_buffer }
        ensures { result ≡ record { ring = consumer; buffer = buffer } }
    {
        Outlet { consumer, buffer }
    }

    /// Takes one slip out of the ring and opens it, where fewer than 64 are open and the ring gives
    /// one. Whether it did.
    pub fn look(&mut self) -> bool
        ensures taken { IsTrue result → Takes self.old self.new }
        ensures may { IsTrue result → may_look self.old.buffer ≡ true }
        ensures left { IsFalse result → Looks self.old self.new }
        ensures none { IsFalse result →
            may_look self.old.buffer ≡ true → waiting self.new ≡ [] }
        ensures succeeds { may_look self.old.buffer ≡ true →
            0 < length (waiting self.old) → IsTrue result }
        ensures released { released S.reply_to self.new ≡ released S.reply_to self.old }
        ensures kept { IsKept self.new }
    {
        if self.buffer.is_closed() || self.buffer.open_slips() >= OPEN_SLIPS_MAX {
            return false;
        }
        let Ok(job) = self.consumer.pop() else {
            return false;
        };
        match self.buffer.open(job) {
            Ok(_) => true,
            Err(_) => unreachable!(),
        }
    }

    /// Puts the answer at its place, which may be open or not.
    pub fn settle(&mut self, place: u64, answer: Answer<S>) -> Result<(), (SettleFault, Answer<S>)>
        ensures ring { Rests self.old self.new }
        ensures fault { MatchResult result (λ _. settle_fault self.old.buffer place ≡ None)
            (λ e. settle_fault self.old.buffer place ≡ Some e.0) }
        ensures settled { OnOk result (self.new.buffer ≡ settled self.old.buffer place answer) }
        ensures refused { OnErr result (self.new.buffer ≡ self.old.buffer) }
        ensures back { IfErr result (λ e. e.1 ≡ answer) }
        ensures released { released S.reply_to self.new ≡ released S.reply_to self.old }
        ensures kept { IsKept self.new }
    {
        self.buffer.settle(place, answer)
    }

    /// Releases the reply of the next place, where it is open and its answer is there.
    pub fn release(&mut self) -> Next<S>
        ensures ring { Rests self.old self.new }
        ensures next { (result, self.new.buffer) ≡ next_of S.Job.eq S.reply_to self.old.buffer }
        ensures releases { Releases S.Job.eq S.reply_to self.old result }
        ensures released { released S.reply_to self.new ≡
            released S.reply_to self.old ++ replied result }
        ensures kept { IsKept self.new }
    {
        self.buffer.next()
    }

    /// Closes the outlet: what is open is dropped, and nothing more is taken or released.
    pub fn close(&mut self)
        ensures ring { Rests self.old self.new }
        ensures closed { self.new.buffer ≡ closed_off self.old.buffer }
        ensures released { released S.reply_to self.new ≡ released S.reply_to self.old }
        ensures kept { IsKept self.new }
    {
        self.buffer.close();
    }

    /// Whether the intake was dropped. No contract speaks of the answer.
    pub fn is_abandoned(&mut self) -> bool
        ensures { Looks self.old self.new }
    {
        self.consumer.is_abandoned()
    }

    /// How many of the jobs that were taken are open, their replies not released.
    pub fn open_slips(&self) -> usize
        ensures { result ≡ length self.now.buffer.slips }
    {
        self.buffer.open_slips()
    }

    /// The place whose reply is released next: so many were released.
    pub fn next_place(&self) -> u64
        ensures next { result ≡ self.now.buffer.next }
        ensures released { result ≡ length (released S.reply_to self.now) }
    {
        self.buffer.next_place()
    }
}
