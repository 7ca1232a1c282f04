//! Two threads put at 64 desks and wait for what four workers post, with pauses in between: a wait
//! that nobody ends would show as a run that doesn't end.

ghost use Rattle.std.specs.Prelude.{◌≡◌};
ghost use Rattle.try_pool.specs.Desks.{AreMoved};

use crate::digits::Digits;
use crate::drive::{Desks, all_home, books_if, desks_of, pool_of, put_run, take_run};
use crate::fault::RunFault;
use crate::runs::Outcome;
use mac_pool::Desk;
use std::alloc::Global;
use std::rt::Clock;
use std::sync::Wait;
use std::thread;
use std::thread::Threads;
use std::time::Duration;

/// How many workers there are.
const WORKERS: usize = 4;

/// How many desks each of the two threads has.
const DESKS: usize = 32;

/// How many jobs one desk of a round gets at a time: more than its mailbox holds, so that workers
/// wait for room.
const BURST: u64 = 160;

/// The books of a pool that was hammered for so many rounds.
pub(crate) fn books<R>(rt: &R, alloc: Global, rounds: u64) -> Result<Outcome, RunFault>
where
    R: Threads + Wait + Clock + Copy + Send + Sync + 'static,
{
    let Ok(mut pool) = pool_of(rt, alloc, WORKERS) else {
        return Err(RunFault::Refused);
    };
    let one = desks_of(alloc, &mut pool, DESKS);
    let other = desks_of(alloc, &mut pool, DESKS);
    let (one, other) = thread::join(
        rt,
        move || -> (bool, Desks)
            ensures { AreMoved one.items result.1.items }
        { hammer(rt, one, rounds, 12_345) },
        move || -> (bool, Desks)
            ensures { AreMoved other.items result.1.items }
        { hammer(rt, other, rounds, 54_321) },
    );
    all_home(&mut pool, one.1);
    all_home(&mut pool, other.1);
    books_if(rt, pool, one.0 && other.0)
}

/// What one thread does. Whether all jobs were answered.
fn hammer<R: Wait + Clock>(rt: &R, mut desks: Desks, rounds: u64, seed: u64) -> (bool, Desks)
    ensures { AreMoved desks.items result.1.items }
{
    let mut dice = Dice { state: seed };
    let mut is_right = true;
    for round in 0..rounds {
        is_right &= turn(rt, &mut desks, round, &mut dice);
    }
    (is_right, desks)
}

/// A round: a burst for one desk, one to four jobs for each, and then the answers to these.
fn turn<R: Wait + Clock>(rt: &R, desks: &mut Desks, round: u64, dice: &mut Dice) -> bool
    ensures { AreMoved desks.old.items desks.new.items }
{
    let many = (round % DESKS as u64) as usize;
    let few = round % 4 + 1;
    let mut is_right = true;
    for number in 0..desks.len() {
        is_right &= give(rt, &mut desks[number], round, few, number == many);
        pause(rt, dice);
    }
    for number in 0..desks.len() {
        pause(rt, dice);
        is_right &= take_run(rt, &mut desks[number].taker, round, few);
    }
    is_right
}

/// Some jobs for a desk, behind a burst for it.
fn give<R: Wait>(rt: &R, desk: &mut Desk<Digits>, from: u64, count: u64, is_burst: bool) -> bool
    ensures { desk.new.putter.queue ≡ desk.old.putter.queue }
{
    let is_right = !is_burst || burst(rt, desk, from);
    is_right && put_run(rt, &mut desk.putter, from, count)
}

/// More jobs for a desk than its mailbox holds, and their answers.
fn burst<R: Wait>(rt: &R, desk: &mut Desk<Digits>, from: u64) -> bool
    ensures { desk.new.putter.queue ≡ desk.old.putter.queue }
{
    put_run(rt, &mut desk.putter, from, BURST) && take_run(rt, &mut desk.taker, from, BURST)
}

/// Sleeps for up to 50 microseconds, one time in eight.
fn pause<R: Clock>(rt: &R, dice: &mut Dice) {
    let thrown = dice.throw();
    if thrown % 8 == 0 {
        thread::sleep(rt, Duration::from_micros(thrown / 8 % 50));
    }
}

/// Numbers that look like chance (xorshift, 64 bits).
#[derive(Drop)]
struct Dice {
    state: u64,
}

impl Dice {
    fn throw(&mut self) -> u64 {
        let a = self.state ^ (self.state << 13);
        let b = a ^ (a >> 7);
        self.state = b ^ (b << 17);
        self.state
    }
}
