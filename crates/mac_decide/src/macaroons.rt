//! Macaroons as a service.

ghost use Rattle.std.specs.Prelude.{refl};
ghost use Rattle.std.specs.Cmp.{booleans_Decides, unsigned_Decides};
ghost use Rattle.std.proofs.lemmas.Slice.Eq.{bytes_eq-Decides};
ghost use Rattle.mac_decide.specs.Answer.{reply_of};
ghost use Rattle.mac_decide.specs.SameJobs.{same_bases, same_jobs, same_keys};

use crate::job::{Basis, Job};
use crate::reply::answer;
use crate::side_by_side::answer_all;
use mac_hmac::RootKey;
use mac_keys::Keys;
use mac_order::Service;
use mac_wire::{Arrival, NoMemory, Reply};
use std::alloc::Global;

/// The service whose jobs are arrivals with what they are answered on, and whose replies are their
/// answers.
pub struct Macaroons;

impl Service for Macaroons {
    type Job = Job;

    type Reply = Reply;

    ghost reply_to = { λ job. reply_of job.arrival job.basis };

    fn work(alloc: Global, job: &Job) -> Result<Reply, NoMemory> {
        answer(alloc, job)
    }

    fn work_all(alloc: Global, jobs: &[Job]) -> Result<Vec<Reply>, NoMemory> {
        answer_all(alloc, jobs)
    }

    fn copy(alloc: Global, job: &Job) -> Result<Job, NoMemory> {
        let arrival = job.arrival.copy(alloc)?;
        Ok(Job {
            arrival,
            basis: job.basis,
        })
    }

    ghost equal_jobs = { same_jobs ⟦<Arrival as PartialEq>⟧.eq ⟦<Basis as PartialEq>⟧.eq
        (record {
          payloads = λ p q. (bytes_eq-Decides p q).0;
          payload_first = λ p. refl;
          payload_last = λ p. refl;
        })
        (same_bases ⟦<Keys as PartialEq>⟧.eq ⟦<bool as PartialEq>⟧.eq ⟦<u64 as PartialEq>⟧.eq
        (same_keys ⟦<RootKey as PartialEq>⟧.eq (λ k l. (bytes_eq-Decides k l).0))
        (λ b c. (booleans_Decides b c).0) (λ m n. (unsigned_Decides m n).0)) };
}
