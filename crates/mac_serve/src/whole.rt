//! All the threads, from their start to their end.

ghost use Rattle.std.specs.Prelude.{◌≡◌, ◌≢◌, ◌⊎◌, ◌↔◌, ◌≤◌, ◌<◌, Err, IfOk, OnOk, OnErr, length};
ghost use Rattle.mac_serve.specs.Caller.{devices, AttendsEach, HasDesk, HaveDesks, IsAttendedThere};
ghost use Rattle.mac_serve.specs.Seating.{AreUntouched, IsSamePool, IsSeated, KeepDesks};
ghost use Rattle.mac_serve.specs.Whole.{IsWhole};

use crate::caller::Caller;
use crate::fault::WholeFault;
use mac_board::Outlook;
use mac_decide::Macaroons;
use mac_pool::{DESKS_MAX, DeskFault, Finished, Pool, PoolFault, WORKERS_MAX};
use mac_wire::{Sink, Source};
use std::alloc::Global;
use std::sync::Wait;
use std::thread::{Threads, for_each_mut};

/// Starts so many workers, serves all connections at once, each from its source to its sink at a
/// desk of its own, and ends the workers. A connection has two threads as long as the system gives
/// them; one for which there is none waits for another's.
pub fn serve_all<R, In: Source, Out: Sink, K: Outlook>(
    rt: &R,
    alloc: Global,
    workers: usize,
    callers: &mut [Caller<In, Out, K>],
) -> Result<Finished<Macaroons>, WholeFault>
where
    R: Threads + Wait + Sync + Copy + Send + 'static,
    ensures count { (result ≡ Err WholeFault.Count) ↔ ((workers ≡ 0) ⊎ (WORKERS_MAX < workers)) }
    ensures crowd { DESKS_MAX < length callers.old
        → (result ≡ Err WholeFault.Count) ⊎ (result ≡ Err WholeFault.Crowd) }
    ensures untouched { OnErr result (AreUntouched callers.old callers.new) }
    ensures whole { IfOk result (λ end. IsWhole
        (devices In.tells In.taken Out.tells Out.written K.tells K.known)
        workers callers.old callers.new end.workers end.tally) }
{
    if workers == 0 || workers > WORKERS_MAX {
        return Err(WholeFault::Count);
    }
    if callers.len() > DESKS_MAX {
        return Err(WholeFault::Crowd);
    }
    let mut pool = match Pool::start(rt, alloc, workers) {
        Ok(pool) => pool,
        Err(PoolFault::Count) => return Err(WholeFault::Count),
        Err(PoolFault::NoThread) => return Err(WholeFault::NoThread),
        Err(PoolFault::NoMemory) => return Err(WholeFault::NoMemory),
    };
    let seated = seat_from(rt, alloc, &mut pool, callers, 0);
    let Ok(finished) = pool.finish(rt) else {
        unreachable!()
    };
    seated?;
    Ok(finished)
}

/// Gives the connections from this number on a desk each, serves all at once, and takes those desks
/// home. Where a desk is refused nobody is served.
fn seat_from<R: Threads + Wait + Sync, In: Source, Out: Sink, K: Outlook>(
    rt: &R,
    alloc: Global,
    pool: &mut Pool<Macaroons>,
    callers: &mut [Caller<In, Out, K>],
    next: usize,
) -> Result<(), WholeFault>
    requires within { next ≤ length callers.old }
    requires desks { HaveDesks next callers.old }
    ensures seated { OnOk result (IsSeated
        (devices In.tells In.taken Out.tells Out.written K.tells K.known)
        next callers.old callers.new pool.old pool.new) }
    ensures untouched { OnErr result (AreUntouched callers.old callers.new) }
    ensures fault { result ≢ Err WholeFault.Count }
    ensures pool { IsSamePool pool.old pool.new }
    ensures desks { KeepDesks next callers.old callers.new }
{
    if next == callers.len() {
        attend_each(rt, alloc, callers);
        return Ok(());
    }
    let desk = match pool.desk(alloc) {
        Ok(desk) => desk,
        Err(DeskFault::AllOut) => return Err(WholeFault::Crowd),
        Err(DeskFault::NoMemory) => return Err(WholeFault::NoMemory),
    };
    callers[next].desk = Some(desk);
    let result = seat_from(rt, alloc, pool, callers, next + 1);
    pool.home(callers[next].rise());
    result
}

/// Serves all connections at once, each at the desk that it has.
fn attend_each<R: Threads + Wait + Sync, In: Source, Out: Sink, K: Outlook>(
    rt: &R,
    alloc: Global,
    callers: &mut [Caller<In, Out, K>],
)
    requires { HaveDesks (length callers.old) callers.old }
    ensures { AttendsEach
        (devices In.tells In.taken Out.tells Out.written K.tells K.known)
        callers.old callers.new }
{
    let count = callers.len();
    if count == 0 {
        return;
    }
    let attend = |_: usize, caller: &mut Caller<In, Out, K>|
        requires { HasDesk caller.now }
        ensures { IsAttendedThere
            (devices In.tells In.taken Out.tells Out.written K.tells K.known)
            caller.entry.now caller.exit.now }
    { caller.attend(rt, alloc) };
    for_each_mut(rt, callers, count, &attend);
}
