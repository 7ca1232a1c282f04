//! The end of a ring that admits jobs.

ghost use Rattle.std.specs.Prelude.{◌≡◌, ◌+◌, ◌-◌, ◌^◌, ◌<◌, ◌≤◌, [], ◌∷◌, ◌++◌, length, IsOk, OnOk, OnErr, IfOk, IfErr, MatchResult, None, Some};
ghost use Rattle.rtrb.specs.Ring.{sent, producer_capacity};
ghost use Rattle.mac_order.specs.Fault.{admit_fault};
ghost use Rattle.mac_order.specs.Ring.{admitted, free_slips, IsSameIntake, Knows};

use crate::fault::AdmitFault;
use crate::numbered::Numbered;
use crate::ring::RING_SLIPS_MAX;
use crate::service::Service;
use rtrb::Producer;
use std::alloc::Global;
use std::marker::Model;

/// The end of a ring that admits jobs. It moves to the thread that reads them. Contracts see its
/// end of the ring.
#[derive(Drop)]
pub struct Intake<S: Service> {
    pub(crate) producer: Producer<S::Job, Global, Numbered>,
    pub(crate) place: u64,
}

impl<S: Service> Model for Intake<S> {
    ghost use Rattle.std.specs.Prelude.{◌≡◌, length};
    ghost use Rattle.std.specs.declared.alloc.Global.{Global};
    ghost use Rattle.rtrb.specs.Ring.{sent, producer_capacity};
    ghost use Rattle.rtrb.specs.declared.producer.Producer.{Producer};
    ghost use Rattle.mac_order.specs.declared.numbered.Numbered.{Numbered};
    ghost use Rattle.mac_order.specs.declared.ring.TheConstants.{RING_SLIPS_MAX};

    ghost Value = { Producer S.Job Global Numbered };

    ghost view = { λ intake. intake.producer };

    ghost invariant = { λ intake. (intake.place ≡ length (sent intake.producer))
        × (producer_capacity intake.producer ≡ RING_SLIPS_MAX) };
}

impl<S: Service> Intake<S> {
    /// The end that pushes into a new ring.
    pub(crate) fn new(producer: Producer<S::Job, Global, Numbered>) -> Intake<S>
        requires empty { sent producer ≡ [] }
        requires sized { producer_capacity producer ≡ RING_SLIPS_MAX }
        ensures { result ≡ producer }
    {
        Intake { producer, place: 0 }
    }

    /// Puts the job into the ring, and gives its place. One atomic store, and a load where no slip
    /// is known to be free.
    pub fn admit(&mut self, job: S::Job) -> Result<u64, (AdmitFault, S::Job)>
        ensures ring { IsSameIntake self.old self.new }
        ensures fault { MatchResult result
            (λ place. admit_fault (free_slips self.new + 1) place ≡ None)
            (λ e. admit_fault (free_slips self.new) (length (admitted self.old)) ≡ Some e.0) }
        ensures place { IfOk result (λ place. place ≡ length (admitted self.old)) }
        ensures admitted { OnOk result (admitted self.new ≡ admitted self.old ++ job ∷ []) }
        ensures used { OnOk result (free_slips self.old ≤ free_slips self.new + 1) }
        ensures refused { OnErr result (Knows self.old self.new) }
        ensures back { IfErr result (λ e. e.1 ≡ job) }
        ensures succeeds { 0 < free_slips self.old →
            length (admitted self.old) < 2 ^ 64 - 1 → IsOk result }
    {
        if self.producer.is_full() {
            return Err((AdmitFault::Full, job));
        }
        let place = self.place;
        if place == u64::MAX {
            return Err((AdmitFault::Last, job));
        }
        self.producer.push_reserved(job);
        self.place += 1;
        Ok(place)
    }

    /// How many slips of the ring are known to be free. The outlet may have freed more.
    pub fn free_slips(&self) -> usize
        ensures { result ≡ free_slips self.now }
    {
        self.producer.cached_slots()
    }

    /// Whether the outlet was dropped, so that nobody takes what is admitted. No contract speaks of
    /// the answer.
    pub fn is_abandoned(&mut self) -> bool
        ensures { Knows self.old self.new }
    {
        self.producer.is_abandoned()
    }
}
