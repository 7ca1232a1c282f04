//! A pool: a queue with workers in threads of their own, and desks for connections.

ghost use Rattle.std.specs.Prelude.{◌≡◌, ◌≢◌, ◌+◌, ◌≤◌, ◌<◌, ◌⊎◌, ◌↔◌, [], Err, IfOk, IfErr, IsErr, OnOk, OnErr, IfSome, map, length};
ghost use Rattle.mac_pool.specs.Pool.{IsStarted, IsStopped, IsFinished, IsGiven, IsHome, IsBrought, AreOut, AreIdle, at_home, with_home};
ghost use Rattle.std.specs.Arc.{arc_value};
ghost use Rattle.std.specs.Vec.{vec_capacity};
ghost use Rattle.mac_queue.specs.Taking.{fresh_taking};
ghost use Rattle.mac_queue.specs.Putting.{pass_of};
ghost use Rattle.mac_pool.specs.Working.{HasWorked};

use crate::fault::{DeskFault, PoolFault};
use crate::passes::{Slots, bring_home, first_home, home_count, slots_of, take_out};
use crate::work::{Worked, worker};
use mac_order::{NoMemory, Service};
use mac_queue::{Desk, History, PASSES, Queue, QueuePass, Tally};
use std::alloc::Global;
use std::marker::Model;
use std::snapshot::Snapshot;
use std::sync::{Arc, Wait};
use std::thread::{Builder, Promise, PromisedHandle, Threads};

/// The most workers of a pool, and the passes that are kept for them.
pub const WORKERS_MAX: usize = 16;

/// The greatest number of desks that are out at a time.
pub const DESKS_MAX: usize = 64;

/// The stack of a worker's thread, in bytes, whatever limit the process was started under.
const STACK: usize = 1_048_576;

/// What a worker's thread leaves behind comes from the pass that it was given.
#[derive(Drop)]
pub struct FromPass<S: Service>(Snapshot<QueuePass<S>>);

impl<S: Service> Promise<Worked<S>> for FromPass<S> {
    ghost use Rattle.mac_pool.specs.Working.{HasWorked};

    ghost kept_by = { λ p worked.
        HasWorked p.0.value worked.claimed worked.pass worked.deliveries };
}

type Thread<S> = PromisedHandle<Worked<S>, FromPass<S>>;

/// What a pool leaves behind.
#[derive(Drop)]
pub struct Finished<S: Service> {
    /// The books of its queue.
    pub tally: Tally,
    /// What each worker left behind. For contracts: it takes no room.
    pub workers: History<Worked<S>>,
}

/// A queue with its workers and its 80 passes, each at home or out with a worker or a desk.
/// A pool that is dropped leaves its workers asleep: stop it instead.
#[derive(Drop)]
pub struct Pool<S: Service> {
    queue: Arc<Queue<S>, Global>,
    workers: Vec<Thread<S>>,
    passes: Slots<S>,
    // The room for what `stop` hands to the queue's tally.
    all: Vec<QueuePass<S>>,
}

impl<S: Service> Model for Pool<S> {
    ghost use Rattle.mac_pool.specs.Pool.{Slots, slots_code};

    ghost Value = { Slots S.Job };

    ghost coded = { slots_code S.Job.code };

    ghost use Rattle.std.specs.Prelude.{length, map};
    ghost use Rattle.std.specs.Arc.{arc_value};
    ghost use Rattle.std.specs.Vec.{vec_capacity};
    ghost use Rattle.mac_pool.specs.Pool.{IsKept};

    ghost view = { λ p. record {
      queue = (arc_value p.queue).tickets;
      workers = length p.workers.items;
      passes = p.passes.items;
    } };

    ghost invariant = { λ p.
        IsKept (arc_value p.queue).tickets (map (λ w. w.promise.0.value) p.workers.items)
        (vec_capacity p.workers) p.passes.items p.all.items (vec_capacity p.all) };
}

impl<S: Service> Pool<S> {
    /// Starts so many workers, each in a thread of its own. Takes the room for all that the pool
    /// keeps later; where a thread or memory is refused, those that were started are ended.
    pub fn start<R>(rt: &R, alloc: Global, workers: usize) -> Result<Pool<S>, PoolFault>
    where
        R: Threads + Wait + Copy + Send + 'static,
        S: 'static,
        S::Job: 'static,
        S::Reply: 'static,
        ensures count { (result ≡ Err PoolFault.Count) ↔ ((workers ≡ 0) ⊎ (WORKERS_MAX < workers)) }
        ensures started { IfOk result (λ pool. IsStarted workers pool) }
    {
        if workers == 0 || workers > WORKERS_MAX {
            return Err(PoolFault::Count);
        }
        let Ok(mut pool) = Pool::idle(alloc) else {
            return Err(PoolFault::NoMemory);
        };
        for _ in 0..workers {
            if let Err(fault) = pool.hire(rt, alloc) {
                pool.dismiss(rt);
                return Err(fault);
            }
        }
        Ok(pool)
    }

    /// A pool with all passes at home.
    fn idle(alloc: Global) -> Result<Pool<S>, NoMemory>
        ensures { IfOk result (λ pool. IsStarted 0 pool) }
    {
        let (row, fresh) = Queue::new(alloc)?;
        let passes = slots_of(alloc, fresh)?;
        let queue = Arc::new(alloc, row)?;
        let workers = Vec::with_capacity(alloc, WORKERS_MAX)?;
        let all = Vec::with_capacity(alloc, PASSES)?;
        Ok(Pool {
            queue,
            workers,
            passes,
            all,
        })
    }

    /// Starts one worker more.
    fn hire<R>(&mut self, rt: &R, alloc: Global) -> Result<(), PoolFault>
    where
        R: Threads + Wait + Copy + Send + 'static,
        S: 'static,
        S::Job: 'static,
        S::Reply: 'static,
        requires started { IsStarted self.old.workers self.old }
        requires room { self.old.workers < WORKERS_MAX }
        ensures hired { OnOk result (IsStarted (self.old.workers + 1) self.new
            × (self.new.workers ≡ self.old.workers + 1)) }
        ensures fault { result ≢ Err PoolFault.Count }
    {
        let Ok(queue) = Arc::try_clone(&self.queue) else {
            return Err(PoolFault::NoMemory);
        };
        let pass = take_out(&mut self.passes, self.workers.len());
        match started(*rt, alloc, queue, pass) {
            Some(thread) => {
                self.workers.push_reserved(thread);
                Ok(())
            }
            None => Err(PoolFault::NoThread),
        }
    }

    /// A desk, with a fresh mailbox. Takes all the memory that the desk ever takes.
    pub fn desk(&mut self, alloc: Global) -> Result<Desk<S>, DeskFault>
        ensures desk { IfOk result (λ desk. IsGiven self.old (pass_of desk.putter) self.new
            × (WORKERS_MAX ≤ desk.putter.number)) }
        ensures fresh { IfOk result (λ desk. desk.taker ≡ fresh_taking desk.putter.mail) }
        ensures same { OnErr result (self.new ≡ self.old) }
        ensures out { (result ≡ Err DeskFault.AllOut) ↔ AreOut WORKERS_MAX PASSES self.old.passes }
    {
        let Some(number) = first_home(&self.passes, WORKERS_MAX, PASSES) else {
            return Err(DeskFault::AllOut);
        };
        let Ok((queue, pass)) = self.give(number) else {
            return Err(DeskFault::NoMemory);
        };
        match Desk::new(alloc, queue, pass) {
            Ok(desk) => Ok(desk),
            Err(pass) => {
                self.take_home(pass);
                Err(DeskFault::NoMemory)
            }
        }
    }

    /// Takes a desk back.
    pub fn home(&mut self, desk: Desk<S>)
        requires { desk.putter.queue ≡ self.old.queue }
        ensures { self.new ≡ with_home self.old (pass_of desk.putter) }
    {
        self.take_home(desk.into_pass());
    }

    /// Gives the pass of this number, with a handle on its queue.
    fn give(&mut self, number: usize) -> Result<(Arc<Queue<S>, Global>, QueuePass<S>), NoMemory>
        requires home { IsHome number self.old.passes }
        ensures given { IfOk result (λ given. IsGiven self.old given.1 self.new
            × (given.1.number ≡ number) × (given.1.queue ≡ (arc_value given.0).tickets)) }
        ensures same { OnErr result (self.new ≡ self.old) }
    {
        let queue = Arc::try_clone(&self.queue)?;
        let pass = take_out(&mut self.passes, number);
        Ok((queue, pass))
    }

    fn take_home(&mut self, pass: QueuePass<S>)
        requires { pass.queue ≡ self.old.queue }
        ensures { self.new ≡ with_home self.old pass }
    {
        let number = pass.number();
        self.passes[number] = Some(pass);
    }

    /// Ends the workers, and tells the books of the queue. While a desk is out, the pool comes
    /// back as it was.
    pub fn stop<R: Threads + Wait>(self, rt: &R) -> Result<Tally, Pool<S>>
        ensures out { IsErr result ↔ (length (at_home self.passes) + self.workers ≢ PASSES) }
        ensures same { IfErr result (λ pool. pool ≡ self) }
        ensures tally { IfOk result (λ tally. IsStopped self tally) }
    {
        match self.finish(rt) {
            Ok(finished) => Ok(finished.tally),
            Err(pool) => Err(pool),
        }
    }

    /// The same, and tells what each worker did.
    pub fn finish<R: Threads + Wait>(self, rt: &R) -> Result<Finished<S>, Pool<S>>
        ensures out { IsErr result ↔ (length (at_home self.passes) + self.workers ≢ PASSES) }
        ensures same { IfErr result (λ pool. pool ≡ self) }
        ensures finished { IfOk result (λ end. IsFinished self end.workers end.tally) }
    {
        if home_count(&self.passes) + self.workers.len() != PASSES {
            return Err(self);
        }
        let Pool {
            queue,
            workers,
            passes,
            mut all,
        } = self;
        let mut came = History::new();
        queue.close();
        bring_back(rt, &queue, workers, &mut all, &mut came);
        bring_home(passes, &mut all);
        let tally = queue.tally(rt, all);
        Ok(Finished {
            tally,
            workers: came,
        })
    }

    /// Ends the workers.
    fn dismiss<R: Threads>(self, rt: &R) {
        let Pool {
            queue,
            workers,
            passes: _,
            mut all,
        } = self;
        queue.close();
        bring_back(rt, &queue, workers, &mut all, &mut History::new());
    }
}

/// A thread in which a worker works, if the system gives one.
fn started<S, R>(
    rt: R,
    alloc: Global,
    queue: Arc<Queue<S>, Global>,
    pass: QueuePass<S>,
) -> Option<Thread<S>>
where
    S: Service + 'static,
    S::Job: 'static,
    S::Reply: 'static,
    R: Threads + Wait + Copy + Send + 'static,
    requires queue { pass.queue ≡ (arc_value queue).tickets }
    ensures { IfSome result (λ thread. thread.promise.0.value ≡ pass) }
{
    let promise = FromPass(Snapshot::of(&pass));
    let work = move || -> Worked<S>
        requires { pass.queue ≡ (arc_value queue).tickets }
        ensures { HasWorked pass result.claimed result.pass result.deliveries }
    { worker(&rt, alloc, &queue, pass) };
    Builder::new()
        .stack_size(STACK)
        .spawn_with(&rt, promise, work)
        .ok()
}

/// Waits for the workers, keeps their passes, and tells what they did.
fn bring_back<S: Service, R: Threads>(
    rt: &R,
    queue: &Queue<S>,
    mut workers: Vec<Thread<S>>,
    all: &mut Vec<QueuePass<S>>,
    came: &mut History<Worked<S>>,
)
    requires room { length all.old.items + length workers.items ≤ vec_capacity all.old }
    requires given { AreIdle queue.now.tickets
        (map (λ worker. worker.promise.0.value) workers.items) }
    requires none { came.old ≡ [] }
    ensures capacity { vec_capacity all.new ≡ vec_capacity all.old }
    ensures brought { IsBrought queue.now.tickets (length workers.items) all.old.items all.new.items
        came.new }
{
    while let Some(thread) = workers.pop() {
        let worked = thread.join(rt);
        came.add(&worked);
        all.push_reserved(worked.pass);
    }
}
