//! Tickets that go from one putter through the workers and back.

ghost use Rattle.std.specs.Prelude.{◌≡◌};

use crate::digits::Digits;
use crate::drive::{answered, books_if, desk_of, pool_of, put_run};
use crate::fault::RunFault;
use crate::runs::Outcome;
use mac_pool::{Desk, Taker};
use std::alloc::Global;
use std::rt::Clock;
use std::sync::Wait;
use std::thread;
use std::thread::Threads;
use std::time::Duration;

/// So many tickets are put before those that were put before them are taken, so that the workers
/// have some at any time, and a mailbox has room for all.
const RUN: u64 = 64;

/// The books of a pool of so many workers that had so many runs of 64 tickets.
pub(crate) fn books<R>(
    rt: &R,
    alloc: Global,
    workers: usize,
    runs: u64,
) -> Result<Outcome, RunFault>
where
    R: Threads + Wait + Copy + Send + 'static,
{
    let Ok(mut pool) = pool_of(rt, alloc, workers) else {
        return Err(RunFault::Refused);
    };
    let mut desk = desk_of(alloc, &mut pool)?;
    let is_right = go_through(rt, &mut desk, runs);
    pool.home(desk);
    books_if(rt, pool, is_right)
}

/// Puts so many runs of jobs, and takes their answers one run later. Whether the places that were
/// answered add up to those that were put.
fn go_through<R: Wait>(rt: &R, desk: &mut Desk<Digits>, runs: u64) -> bool
    ensures { desk.new.putter.queue ≡ desk.old.putter.queue }
{
    let mut is_put = true;
    let mut taken: u64 = 0;
    for run in 0..runs {
        is_put &= put_run(rt, &mut desk.putter, run.wrapping_mul(RUN), RUN);
        if run > 0 {
            taken = taken.wrapping_add(take_sum(rt, &mut desk.taker));
        }
    }
    if runs > 0 {
        taken = taken.wrapping_add(take_sum(rt, &mut desk.taker));
    }
    is_put && taken == sum_below(runs.wrapping_mul(RUN))
}

/// The sum of the places of the next 64 answers.
fn take_sum<R: Wait>(rt: &R, taker: &mut Taker<Digits>) -> u64 {
    let mut sum: u64 = 0;
    for _ in 0..RUN {
        sum = sum.wrapping_add(answered(taker.wait(rt)));
    }
    sum
}

/// The sum of the numbers below this one.
fn sum_below(end: u64) -> u64 {
    let mut sum: u64 = 0;
    for number in 0..end {
        sum = sum.wrapping_add(number);
    }
    sum
}

/// The books of a pool whose workers had nothing to do for so long.
pub(crate) fn idle_books<R>(
    rt: &R,
    alloc: Global,
    workers: usize,
    millis: u64,
) -> Result<Outcome, RunFault>
where
    R: Threads + Wait + Clock + Copy + Send + 'static,
{
    let Ok(pool) = pool_of(rt, alloc, workers) else {
        return Err(RunFault::Refused);
    };
    thread::sleep(rt, Duration::from_millis(millis));
    books_if(rt, pool, true)
}
