//! Calls of `mac_order` that hand jobs back.

use crate::outcome::{Outcome, Refused, made_if, stood_if};
use crate::samples::{is_mint, is_token, mint_job, verify_job};
use mac_decide::{Job, Macaroons};
use mac_order::{Answer, Next, Reorder};
use std::alloc::Global;

/// How many jobs are answered together, one of them a mint.
const TOGETHER: usize = 8;

/// The job comes back, and is answered then.
pub(crate) fn makes(alloc: Global) -> Result<Outcome, Refused> {
    let mut buffer = opened(alloc)?;
    match Answer::make(alloc, mint_job(alloc)?) {
        Ok(answer) => Ok(made_if(is_sent(&mut buffer, answer))),
        Err(back) => {
            let is_back = is_mint(&back);
            Ok(match Answer::make(alloc, back) {
                Ok(answer) => stood_if(is_back && is_sent(&mut buffer, answer)),
                Err(_) => Outcome::Wrong,
            })
        }
    }
}

/// A buffer in which the job is open.
pub(crate) fn opened(alloc: Global) -> Result<Reorder<Macaroons>, Refused> {
    let mut buffer = Reorder::new(alloc)?;
    match buffer.open(mint_job(alloc)?) {
        Ok(_) => Ok(buffer),
        Err(_) => Err(Refused),
    }
}

/// Whether the answer goes out, and is the token.
pub(crate) fn is_sent(buffer: &mut Reorder<Macaroons>, answer: Answer<Macaroons>) -> bool {
    if buffer.settle(0, answer).is_err() {
        return false;
    }
    matches!(buffer.next(), Next::Reply(0, reply) if is_token(&reply))
}

/// All jobs come back, and are answered then.
pub(crate) fn makes_all(alloc: Global) -> Result<Outcome, Refused> {
    let jobs = jobs(alloc)?;
    match Answer::<Macaroons>::make_all(alloc, jobs) {
        Ok(answers) => Ok(made_if(answers.len() == TOGETHER)),
        Err(back) => {
            let are_back = back.len() == TOGETHER && back.first().is_some_and(is_mint);
            Ok(match Answer::<Macaroons>::make_all(alloc, back) {
                Ok(answers) => stood_if(are_back && answers.len() == TOGETHER),
                Err(_) => Outcome::Wrong,
            })
        }
    }
}

/// A mint, and verifies behind it.
fn jobs(alloc: Global) -> Result<Vec<Job>, Refused> {
    let mut jobs = Vec::new(alloc);
    jobs.push(mint_job(alloc)?)?;
    for _ in 1..TOGETHER {
        jobs.push(verify_job(alloc)?)?;
    }
    Ok(jobs)
}
