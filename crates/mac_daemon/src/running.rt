//! The threads of a daemon: its loops, its workers, and who accepts.
ghost use denote.Param.Send.{IsSend, IsSync};
ghost use Rattle.std.specs.Prelude.{◌≡◌, ◌-◌, IfOk, OnErr, length};
ghost use Rattle.mac_daemon.specs.Arrivals.{AreAdmitted};
ghost use Rattle.mac_daemon.specs.Unstarted.{count_unstarted};
ghost use Rattle.mac_daemon.specs.Day.{HasRegistered, IsDay, IsWholeDay};
ghost use Rattle.mac_daemon.specs.Homes.{AreHome};
ghost use Rattle.mac_daemon.specs.Memory.{tokens_memory};
ghost use Rattle.mac_loop.specs.Asks.{home_of};
ghost use Rattle.mac_pool.specs.Pool.{IsGiven};
ghost use Rattle.mac_queue.specs.Putting.{pass_of};
ghost use Rattle.mac_sockets.specs.Entrance.{doors_of};

use crate::accepting::accept_to_end;
use crate::day::Day;
use crate::door::Gift;
use crate::fault::DaemonFault;
use crate::shared::DaemonShared;
use crate::unstarted::Unstarted;
use mac_board::{Follower, Followers, TimedTables};
use mac_decide::{Macaroons, SeenTokens};
use mac_host::DaemonEnd;
use mac_loop::{EndedLoop, Loop, LoopParts, LoopTerms, Loops, Origin, Register};
use mac_pool::{Desk, Pool};
use mac_sockets::{Entrance, STACK, SharedBudget, has_roomy_stacks};
use mac_system::SystemMoments;
use std::alloc::{AllocError, Global};
use std::hash::RandomState;
use std::random::RandomSource;
use std::snapshot::Snapshot;
use std::sync::{Arc, Wait};
use std::thread::{Builder, Promise, PromisedHandle, Threads};
use std::time::Clock;

/// How many followers of the key tables a daemon has at most: for its loops, of which there are 64
/// at most, and for those of other servers.
pub const FOLLOWERS_MAX: usize = 192;

/// How a daemon serves its connections.
#[derive(Clone, Copy)]
pub struct Shape {
    /// How many loops wait for connections and answer them.
    pub loops: usize,
    /// How many workers answer what loops must not.
    pub workers: usize,
    /// How many connections there are at a time.
    pub connections: u64,
    /// How many of them at the second socket: without a number, as many.
    pub side_connections: Option<u64>,
    /// The seconds after which a connection that makes no progress is ended.
    pub idle: Option<u64>,
    /// How many bytes tokens are remembered in that were found to be minted: none where it is 0.
    pub remembered: u64,
    /// How many bytes of memory these and the connections may have together.
    pub memory: u64,
}

impl Shape {
    /// How many bytes tokens are remembered in: those that were asked for, and half of the memory
    /// at most.
    pub fn tokens_memory(self) -> u64
        ensures { result ≡ tokens_memory self }
    {
        self.remembered.min(self.memory / 2)
    }

    /// How many bytes of memory the connections may have together: what those tokens leave.
    pub fn connections_memory(self) -> u64
        ensures { result ≡ self.memory - tokens_memory self }
    {
        self.memory.saturating_sub(self.tokens_memory())
    }

    /// What its loops are made of, which share this memory of tokens, and this budget of what their
    /// clients hold.
    pub fn loop_parts(
        self,
        seen: &SeenTokens,
        budget: &Arc<SharedBudget, Global>,
    ) -> Result<LoopParts, AllocError>
        ensures { IfOk result (λ parts. parts.terms.count ≡ self.loops) }
    {
        Ok(LoopParts {
            terms: self.loop_terms(has_roomy_stacks()),
            seen: seen.share()?,
            budget: Arc::try_clone(budget)?,
        })
    }

    /// What its loops are held to.
    fn loop_terms(self, may_share: bool) -> LoopTerms
        ensures memory { result.memory ≡ self.memory - tokens_memory self }
        ensures count { result.count ≡ self.loops }
        ensures workers { result.workers ≡ self.workers }
        ensures idle { result.idle ≡ self.idle }
    {
        LoopTerms {
            count: self.loops,
            workers: self.workers,
            idle: self.idle,
            may_share,
            memory: self.connections_memory(),
        }
    }
}

/// The memory of tokens of a daemon of this shape, if the system gives random bytes and memory for
/// it.
fn make_memory<R: RandomSource>(rt: &R, alloc: Global, shape: Shape) -> Option<SeenTokens> {
    let remembered = shape.tokens_memory();
    if remembered == 0 {
        return SeenTokens::without_memory(alloc).ok();
    }
    let hashes = RandomState::new(rt).ok()?;
    SeenTokens::new(alloc, hashes, remembered as usize).ok()
}

/// The memory of tokens of a daemon. Where there is none for it that is told, and it computes each
/// signature.
pub fn make_seen<R: RandomSource + Eprint>(rt: &R, alloc: Global, shape: Shape) -> SeenTokens {
    match make_memory(rt, alloc, shape) {
        Some(seen) => seen,
        None => {
            let _ = eprintln!(rt;
                "warning: no memory or no random bytes to remember tokens by; none is remembered"
            );
            SeenTokens::none()
        }
    }
}

/// What the threads of a daemon are started with.
#[derive(Drop)]
pub struct ServiceParts {
    /// How many workers answer what loops must not.
    pub workers: usize,
    /// Where connections come in.
    pub entrance: Entrance<Gift>,
    /// How many of them are accepted: without a number, one after another until that is shut.
    pub count: Option<u64>,
    /// What the threads tell one another.
    pub shared: Arc<DaemonShared, Global>,
    /// The followers of the key tables, one for each loop.
    pub followers: Followers,
    /// How the daemon comes to its end.
    pub ending: Arc<DaemonEnd, Global>,
}

/// What a daemon's threads are started beside.
#[derive(Drop)]
pub(crate) struct LentParts<'a, O: Origin> {
    pub(crate) alloc: Global,
    pub(crate) loops: &'a Arc<Loops<O>, Global>,
    pub(crate) shared: &'a Arc<DaemonShared, Global>,
    followers: &'a Followers,
    ending: &'a DaemonEnd,
    /// How many connections are accepted: without a number, one after another.
    pub(crate) count: Option<u64>,
}

/// A loop's desk comes back from its thread.
#[derive(Drop)]
struct SameDesk(Snapshot<Desk<Macaroons>>);

impl<O: Origin> Promise<EndedLoop<O>> for SameDesk {
    ghost use Rattle.std.specs.Prelude.{◌≡◌};
    ghost use Rattle.mac_loop.specs.Asks.{home_of};

    ghost kept_by = { λ p ended. home_of ended.desk ≡ home_of p.0.value };
}

type LoopThread<O> = PromisedHandle<EndedLoop<O>, SameDesk>;

/// Starts the workers and the loops, serves the connections that come in, so many where a count is
/// given, and ends the threads once all connections have ended. The day has the books of the
/// workers, and an account of the connections.
pub fn run_service<O, R>(
    rt: &R,
    alloc: Global,
    parts: ServiceParts,
    unstarted: Unstarted<O>,
) -> Result<Day, DaemonFault>
where
    O: Origin + Send + 'static,
    R: Threads + Wait + Clock + Sync + Copy + Send + 'static,
    ensures { IfOk result
        (IsWholeDay parts.count (count_unstarted unstarted) parts.workers parts.entrance) }
{
    let ServiceParts {
        workers,
        mut entrance,
        count,
        shared,
        followers,
        ending,
    } = parts;
    let Unstarted {
        loops,
        made,
        mut register,
    } = unstarted;
    let mut pool = Pool::start(rt, alloc, workers)?;
    let lent = LentParts {
        alloc,
        loops: &loops,
        shared: &shared,
        followers: &followers,
        ending: &ending,
        count,
    };
    let day = run_loops(rt, &mut pool, made, &mut entrance, &mut register, &lent);
    let Ok(books) = pool.finish(rt) else {
        unreachable!()
    };
    let mut day = day?;
    day.settled = Some(register.settle());
    day.faults = shared.faults();
    day.books = Some(books);
    Ok(day)
}

/// Runs these loops, each in a thread at a desk of the pool, while connections come in. Each desk
/// goes home, whether there is a thread for each loop or not. What became of the connections of
/// each loop is told with the day, and its part of the register comes back.
fn run_loops<O, R>(
    rt: &R,
    pool: &mut Pool<Macaroons>,
    mut made: Vec<Box<Loop<O>>>,
    entrance: &mut Entrance<Gift>,
    register: &mut Register<O>,
    lent: &LentParts<'_, O>,
) -> Result<Day, DaemonFault>
where
    O: Origin + Send + 'static,
    R: Threads + Wait + Clock + Sync + Copy + Send + 'static,
    ensures day { IfOk result (IsDay lent.now.count (length made.items) entrance.old) }
    ensures home { AreHome pool.old pool.new }
    ensures admitted { IfOk result (λ _. AreAdmitted (doors_of entrance.old) register.old
        → AreAdmitted (doors_of entrance.old) register.new) }
    ensures registered { IfOk result (λ day.
        HasRegistered register.old day (length made.items) register.new) }
{
    let Some(one) = made.pop() else {
        lent.ending.begin(rt);
        let day = accept_to_end(rt, entrance, register, lent);
        lent.loops.close();
        return day;
    };
    let thread = match start_loop(*rt, pool, one, lent) {
        Ok(thread) => thread,
        Err(fault) => {
            lent.loops.close();
            return Err(fault);
        }
    };
    let day = run_loops(rt, pool, made, entrance, register, lent);
    let EndedLoop {
        desk,
        outcomes,
        register: part,
    } = thread.join(rt);
    pool.home(desk);
    register.join(part);
    let mut day = day?;
    day.add_loop(&outcomes);
    Ok(day)
}

/// Starts the thread of a loop, at a desk of the pool. Where the system gives none, all loops are
/// closed: this one ends here, since it has nobody, and its desk goes home.
fn start_loop<O, R>(
    rt: R,
    pool: &mut Pool<Macaroons>,
    one: Box<Loop<O>>,
    lent: &LentParts<'_, O>,
) -> Result<LoopThread<O>, DaemonFault>
where
    O: Origin + Send + 'static,
    R: Threads + Wait + Clock + Sync + Copy + Send + 'static,
    ensures desk { IfOk result (λ thread.
        IsGiven pool.old (pass_of thread.promise.0.value.putter) pool.new) }
    ensures home { OnErr result (AreHome pool.old pool.new) }
{
    let keys = lent.followers.follower()?;
    let shared = Arc::try_clone(lent.shared)?;
    let loops = Arc::try_clone(lent.loops)?;
    let desk = pool.desk(lent.alloc)?;
    let promise = SameDesk(Snapshot::of(&desk));
    let work = move || -> EndedLoop<O>
        requires { IsSend O.row × (IsSend R.row × IsSync R.row) }
        ensures { home_of result.desk ≡ home_of desk }
    {
        let (one, keys, desk) = (one, keys, desk);
        run_loop(&rt, one, &loops, keys, &shared, desk)
    };
    match Builder::new()
        .stack_size(STACK)
        .spawn_with(&rt, promise, work)
    {
        Ok(thread) => Ok(thread),
        Err(refused) => {
            lent.loops.close();
            let EndedLoop {
                desk: unused,
                outcomes: _,
                register: _,
            } = (refused.value)();
            pool.home(unused);
            Err(DaemonFault::NoThread)
        }
    }
}

/// Runs a loop to its end, at this desk, which comes back with what became of its connections.
fn run_loop<O, R>(
    rt: &R,
    one: Box<Loop<O>>,
    loops: &Loops<O>,
    keys: Follower,
    shared: &DaemonShared,
    desk: Desk<Macaroons>,
) -> EndedLoop<O>
where
    O: Origin,
    R: Threads + Wait + Clock + Sync,
    ensures { home_of result.desk ≡ home_of desk }
{
    let mut outlook = TimedTables::new(keys, SystemMoments::new(rt));
    let one = Box::into_inner(one);
    one.run(rt, loops, &mut outlook, shared, desk)
}
