//! What the core asks of a service.

ghost use Rattle.std.specs.Prelude.{◌≡◌, true, IfOk, map};

use std::alloc::{AllocError, Global};

/// Want of memory.
pub type NoMemory = AllocError;

/// What a core is generic in: jobs, and the reply to each.
pub trait Service: Send + Sync {
    /// What is asked.
    type Job: Eq + Drop + Send;

    /// What is answered.
    type Reply: Drop + Send;

    /// The service's definition: the reply to a job.
    ghost reply_to: { Self.Job → Self.Reply };

    /// Computes the reply to the job, which is the definition's.
    fn work(alloc: Global, job: &Self::Job) -> Result<Self::Reply, NoMemory>
        ensures { IfOk result (λ reply. reply ≡ reply_to job.now) };

    /// Computes the replies to the jobs, in order: one by one, or together where that costs less.
    fn work_all(alloc: Global, jobs: &[Self::Job]) -> Result<Vec<Self::Reply>, NoMemory>
        ensures { IfOk result (λ replies. replies.items ≡ map reply_to jobs.now) }
    {
        let mut replies = Vec::with_capacity(alloc, jobs.len())?;
        for job in jobs {
            replies.push_reserved(Self::work(alloc, job)?);
        }
        Ok(replies)
    }

    /// Makes a second job that equals the first.
    fn copy(alloc: Global, job: &Self::Job) -> Result<Self::Job, NoMemory>
        ensures { IfOk result (λ other. other ≡ job.now) };

    /// Jobs that `==` finds equal hold the same. That a job equals itself is a law of `Eq`.
    ghost equal_jobs: { (a b : Self.Job) → Self.Job.eq a b ≡ true → a ≡ b };
}
