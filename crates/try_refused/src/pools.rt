//! Calls of `mac_pool`.

ghost use Rattle.std.specs.Prelude.{◌≡◌};

use crate::answers::{is_sent, opened};
use crate::outcome::{Outcome, Refused, made_if, once_more, stood_if};
use crate::samples::mint_job;
use mac_decide::Macaroons;
use mac_pool::{Desk, DeskFault, Pool, PoolFault, Post, Putter, Queue};
use std::alloc::Global;
use std::sync::Wait;
use std::thread::Threads;

/// How many workers a pool is to start.
const WORKERS: usize = 3;

pub(crate) fn makes_queues(alloc: Global) -> Outcome {
    once_more(is_queue(alloc), is_queue(alloc))
}

fn is_queue(alloc: Global) -> Option<bool> {
    let (_queue, passes) = Queue::<Macaroons>::new(alloc).ok()?;
    Some(passes.len() == 80)
}

/// Whether the pool ends with so many tickets put and claimed: no desk is out then.
fn ends<R: Threads + Wait>(rt: &R, pool: Pool<Macaroons>, tickets: u64) -> bool {
    match pool.stop(rt) {
        Ok(tally) => tally.put == tickets && tally.claimed == tickets && tally.left == 0,
        Err(_) => false,
    }
}

pub(crate) fn starts<R>(rt: &R, alloc: Global) -> Outcome
where
    R: Threads + Wait + Copy + Send + 'static,
{
    once_more(is_started(rt, alloc), is_started(rt, alloc))
}

fn is_started<R>(rt: &R, alloc: Global) -> Option<bool>
where
    R: Threads + Wait + Copy + Send + 'static,
{
    match Pool::<Macaroons>::start(rt, alloc, WORKERS) {
        Ok(pool) => Some(ends(rt, pool, 0)),
        Err(PoolFault::NoMemory | PoolFault::NoThread) => None,
        Err(PoolFault::Count) => Some(false),
    }
}

/// No desk is out after the refusal; then there is one, and it comes home.
pub(crate) fn desks<R>(rt: &R, alloc: Global) -> Result<Outcome, Refused>
where
    R: Threads + Wait + Copy + Send + 'static,
{
    let Ok(mut pool) = Pool::<Macaroons>::start(rt, alloc, 1) else {
        return Err(Refused);
    };
    match pool.desk(alloc) {
        Ok(desk) => {
            pool.home(desk);
            Ok(made_if(ends(rt, pool, 0)))
        }
        Err(DeskFault::NoMemory) => Ok(stood_if(gives_a_desk(rt, alloc, pool))),
        Err(DeskFault::AllOut) => Ok(Outcome::Wrong),
    }
}

fn gives_a_desk<R: Threads + Wait>(rt: &R, alloc: Global, mut pool: Pool<Macaroons>) -> bool {
    let Ok(desk) = pool.desk(alloc) else {
        return false;
    };
    pool.home(desk);
    ends(rt, pool, 0)
}

/// One worker posts at two places: where memory is refused to it, one post is `Failed`, and the
/// other ticket is claimed and answered.
pub(crate) fn works<R>(rt: &R, alloc: Global) -> Result<Outcome, Refused>
where
    R: Threads + Wait + Copy + Send + 'static,
{
    let Ok(mut pool) = Pool::start(rt, alloc, 1) else {
        return Err(Refused);
    };
    let Ok(mut desk) = pool.desk(alloc) else {
        return Err(Refused);
    };
    let exchanged = exchange(rt, alloc, &mut desk);
    pool.home(desk);
    let outcome = exchanged?;
    Ok(if ends(rt, pool, 2) {
        outcome
    } else {
        Outcome::Wrong
    })
}

/// Puts two jobs and takes their posts.
fn exchange<R: Wait>(rt: &R, alloc: Global, desk: &mut Desk<Macaroons>) -> Result<Outcome, Refused>
    ensures { desk.new.putter.queue ≡ desk.old.putter.queue }
{
    put(rt, alloc, &mut desk.putter, 0)?;
    put(rt, alloc, &mut desk.putter, 1)?;
    let first = is_answered(alloc, 0, desk.taker.wait(rt))?;
    let second = is_answered(alloc, 1, desk.taker.wait(rt))?;
    Ok(match (first, second) {
        (Some(true), Some(true)) => Outcome::Made,
        (Some(true), None) | (None, Some(true)) => Outcome::Stood,
        _ => Outcome::Wrong,
    })
}

fn put<R: Wait>(
    rt: &R,
    alloc: Global,
    putter: &mut Putter<Macaroons>,
    place: u64,
) -> Result<(), Refused>
    ensures { putter.new.queue ≡ putter.old.queue }
{
    match putter.put(rt, place, mint_job(alloc)?) {
        Ok(()) => Ok(()),
        Err(_) => Err(Refused),
    }
}

/// Whether the post has the answer of this place; `None` where it tells want of memory there.
fn is_answered(
    alloc: Global,
    place: u64,
    post: Option<Post<Macaroons>>,
) -> Result<Option<bool>, Refused> {
    match post {
        Some(Post::Answered(at, answer)) => {
            let mut buffer = opened(alloc)?;
            Ok(Some(at == place && is_sent(&mut buffer, answer)))
        }
        Some(Post::Failed(at)) if at == place => Ok(None),
        _ => Ok(Some(false)),
    }
}
