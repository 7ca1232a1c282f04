//! A job with its reply.

ghost use Rattle.std.specs.Prelude.{◌≡◌, IfOk, IfErr};

use crate::service::Service;
use std::alloc::Global;
use std::marker::Model;

/// A job with its reply. Contracts see the job alone, since the type keeps that the reply is the
/// one that the service's definition gives for it.
#[derive(Drop)]
pub struct Answer<S: Service> {
    job: S::Job,
    reply: S::Reply,
}

impl<S: Service> Model for Answer<S> {
    ghost Value = { S.Job };

    ghost view = { λ a. a.job };

    ghost invariant = { λ a. a.reply ≡ S.reply_to a.job };
}

impl<S: Service> Answer<S> {
    /// Works on the job. Want of memory hands the job back.
    pub fn make(alloc: Global, job: S::Job) -> Result<Answer<S>, S::Job>
        ensures ok { IfOk result (λ answer. answer ≡ job) }
        ensures err { IfErr result (λ back. back ≡ job) }
    {
        match S::work(alloc, &job) {
            Ok(reply) => Ok(Answer { job, reply }),
            Err(_) => Err(job),
        }
    }

    /// Works on the jobs, in order. Want of memory hands all of them back.
    pub fn make_all(alloc: Global, jobs: Vec<S::Job>) -> Result<Vec<Answer<S>>, Vec<S::Job>>
        ensures ok { IfOk result (λ answers. answers.items ≡ jobs.items) }
        ensures err { IfErr result (λ back. back.items ≡ jobs.items) }
    {
        let Ok(mut answers) = Vec::with_capacity(alloc, jobs.len()) else {
            return Err(jobs);
        };
        let Ok(replies) = S::work_all(alloc, &jobs) else {
            return Err(jobs);
        };
        for (job, reply) in jobs.into_iter().zip(replies) {
            answers.push_reserved(Answer { job, reply });
        }
        Ok(answers)
    }

    /// The job, and its reply.
    pub fn into_parts(self) -> (S::Job, S::Reply)
        ensures job { result.0 ≡ self }
        ensures reply { result.1 ≡ S.reply_to self }
    {
        let Answer { job, reply } = self;
        (job, reply)
    }

    /// Whether this is an answer to the job, by `==` of jobs.
    pub(crate) fn is_to(&self, job: &S::Job) -> bool
        ensures { result ≡ S.Job.eq self.now job.now }
    {
        self.job == *job
    }

    /// The reply, without its job.
    pub(crate) fn into_reply(self) -> S::Reply
        ensures { result ≡ S.reply_to self }
    {
        self.reply
    }
}
