//! What the runs share: pools, jobs that are put once there is room, posts that are waited for.

ghost use Rattle.std.specs.Prelude.{◌≡◌, IfOk};
ghost use Rattle.try_pool.specs.Desks.{AreAt, Kept};

use crate::digits::Digits;
use crate::fault::RunFault;
use crate::runs::Outcome;
use mac_pool::{Desk, Pool, PoolFault, Post, PutFault, Putter, Taker};
use std::alloc::Global;
use std::sync::Wait;
use std::thread;
use std::thread::Threads;

pub(crate) type Desks = Vec<Desk<Digits>>;

/// A pool of so many workers.
pub(crate) fn pool_of<R>(rt: &R, alloc: Global, workers: usize) -> Result<Pool<Digits>, PoolFault>
where
    R: Threads + Wait + Copy + Send + 'static,
{
    Pool::start(rt, alloc, workers)
}

/// A desk, if there is memory.
pub(crate) fn desk_of(alloc: Global, pool: &mut Pool<Digits>) -> Result<Desk<Digits>, RunFault>
    ensures queue { pool.new.queue ≡ pool.old.queue }
    ensures at { IfOk result (λ desk. desk.putter.queue ≡ pool.old.queue) }
{
    match pool.desk(alloc) {
        Ok(desk) => Ok(desk),
        Err(_) => Err(RunFault::Refused),
    }
}

/// So many desks, or as many as there are.
pub(crate) fn desks_of(alloc: Global, pool: &mut Pool<Digits>, count: usize) -> Desks
    ensures queue { pool.new.queue ≡ pool.old.queue }
    ensures at { AreAt pool.old.queue result.items }
{
    let mut desks = Vec::new(alloc);
    for _ in 0..count {
        match pool.desk(alloc) {
            Ok(desk) => keep(&mut desks, desk),
            Err(_) => return desks,
        }
    }
    desks
}

/// Puts the desk with the others, if there is room.
fn keep(desks: &mut Desks, desk: Desk<Digits>)
    ensures { Kept desk.putter.queue desks.old.items desks.new.items }
{
    let _ = desks.push(desk);
}

/// Takes the desks back.
pub(crate) fn all_home(pool: &mut Pool<Digits>, mut desks: Desks)
    requires { AreAt pool.old.queue desks.items }
    ensures { pool.new.queue ≡ pool.old.queue }
{
    while let Some(desk) = desks.pop() {
        pool.home(desk);
    }
}

/// The books of a pool that ends now, if all went well so far.
pub(crate) fn books_if<R: Threads + Wait>(
    rt: &R,
    pool: Pool<Digits>,
    is_right: bool,
) -> Result<Outcome, RunFault> {
    match pool.stop(rt) {
        Ok(tally) if is_right => Ok(Outcome::Books(tally)),
        _ => Err(RunFault::Wrong),
    }
}

/// Puts the job at its place, once there is room. Whether the queue took it.
pub(crate) fn put_waiting<R: Wait>(
    rt: &R,
    putter: &mut Putter<Digits>,
    place: u64,
    job: u64,
) -> bool
    ensures { putter.new.queue ≡ putter.old.queue }
{
    for _ in rt.forever() {
        match putter.put(rt, place, job) {
            Ok(()) => return true,
            Err((PutFault::Full(_), _)) => thread::yield_now(),
            Err(_) => return false,
        }
    }
    unreachable!()
}

/// Puts so many jobs from one place on, each the number of its place. Whether the queue took all.
pub(crate) fn put_run<R: Wait>(rt: &R, putter: &mut Putter<Digits>, from: u64, count: u64) -> bool
    ensures { putter.new.queue ≡ putter.old.queue }
{
    let mut is_put = true;
    for number in 0..count {
        let place = from.wrapping_add(number);
        is_put &= put_waiting(rt, putter, place, place);
    }
    is_put
}

/// Takes so many answers, each waited for. Whether they are those of so many places from one on,
/// in whatever order.
pub(crate) fn take_run<R: Wait>(rt: &R, taker: &mut Taker<Digits>, from: u64, count: u64) -> bool {
    let mut wanted: u64 = 0;
    let mut taken: u64 = 0;
    for number in 0..count {
        wanted = wanted.wrapping_add(from.wrapping_add(number));
        taken = taken.wrapping_add(answered(taker.wait(rt)));
    }
    wanted == taken
}

/// The place of an answer, and the greatest number where there is none.
pub(crate) fn answered(post: Option<Post<Digits>>) -> u64 {
    match post {
        Some(Post::Answered(place, _)) => place,
        _ => u64::MAX,
    }
}
