//! The runs, and what does each.

use crate::fault::RunFault;
use crate::{hammer, hand_over, rings, rows, tickets};
use mac_order::Totals;
use mac_pool::Tally;
use std::alloc::{AllocError, Global};
use std::rt::Clock;
use std::sync::Wait;
use std::thread::Threads;

/// What a run comes to.
#[derive(Clone, Copy)]
pub(crate) enum Outcome {
    /// The books of a pool that has ended.
    Books(Tally),
    /// What a ring has done.
    Ring(Totals),
    /// All was answered as it is to be.
    Right,
}

/// What a word's run comes to, or why it comes to nothing.
pub(crate) fn told<R>(rt: &R, alloc: Global, word: &str) -> Result<String, AllocError>
where
    R: Threads + Wait + Clock + Copy + Send + Sync + 'static,
{
    match run(rt, alloc, word) {
        Ok(Outcome::Books(tally)) => format!(in alloc;
            "put {} claimed {} left {}",
            tally.put, tally.claimed, tally.left
        ),
        Ok(Outcome::Ring(totals)) => format!(in alloc;
            "admitted {} released {}",
            totals.admitted, totals.released
        ),
        Ok(Outcome::Right) => String::from_str(alloc, "right"),
        Err(RunFault::NoRun) => String::from_str(alloc, "no run"),
        Err(RunFault::Refused) => String::from_str(alloc, "refused"),
        Err(RunFault::Wrong) => String::from_str(alloc, "wrong"),
    }
}

/// The runs: a name, and numbers behind colons.
///
/// ```text
/// hand_over:SLIPS          slips through a ring, one at a time, both ends in one thread
/// ring:full                64 slips in a ring, one that is refused, and one once there is room
/// ring:threads             65 slips through a ring, each end in a thread
/// ring:closed              a close with a slip open and two in the ring
/// ring:refused             settles that the outlet's buffer refuses, and a stranger's answer
/// ring:ends                an intake that ends first, and an outlet that does
/// tickets:WORKERS:RUNS     runs of 64 tickets from one putter through the workers and back
/// idle:WORKERS:MILLIS      workers that have nothing to do for so long
/// hammer:ROUNDS            two threads, 64 desks, four workers, pauses by chance
/// full                     8,192 tickets, and one that is refused
/// closed                   puts at a closed queue
/// refused_work             a job in the middle whose work meets want of memory
/// exchange                 two desks put 2 and 3, each in a thread; their passes claim 3 of them
/// desks                    64 desks, and one that is refused
/// start:WORKERS            a number of workers that is refused
/// desk_out                 an end while a desk is out, and once it is home
/// mailbox                  a mailbox that is full, taken from, and closed
/// rung                     a taker that is woken for something else than a post
/// ```
fn run<R>(rt: &R, alloc: Global, word: &str) -> Result<Outcome, RunFault>
where
    R: Threads + Wait + Clock + Copy + Send + Sync + 'static,
{
    let (name, rest) = word.split_once(':').unwrap_or((word, ""));
    match name {
        "hand_over" => hand_over::totals(alloc, number(rest)?),
        "ring" => rings::row(rt, alloc, rest),
        "tickets" => {
            let (workers, runs) = numbers(rest)?;
            tickets::books(rt, alloc, workers as usize, runs)
        }
        "idle" => {
            let (workers, millis) = numbers(rest)?;
            tickets::idle_books(rt, alloc, workers as usize, millis)
        }
        "hammer" => hammer::books(rt, alloc, number(rest)?),
        "start" => rows::start(rt, alloc, number(rest)? as usize),
        _ => rows::row(rt, alloc, name),
    }
}

/// The number that a word is.
fn number(word: &str) -> Result<u64, RunFault> {
    match word.parse::<u64>() {
        Ok(number) => Ok(number),
        Err(_) => Err(RunFault::NoRun),
    }
}

/// The numbers before and behind a colon.
fn numbers(words: &str) -> Result<(u64, u64), RunFault> {
    match words.split_once(':') {
        Some((one, other)) => Ok((number(one)?, number(other)?)),
        None => Err(RunFault::NoRun),
    }
}
