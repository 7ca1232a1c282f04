//! A loop: a thread's turns over its clients.

ghost use Rattle.std.specs.Prelude.{◌≡◌};
ghost use Rattle.mac_loop.specs.Asks.{home_of};

mod asking;
mod entering;
mod holding;
mod making;
mod sharing;
mod sweeping;
mod turning;
mod yielding;

use crate::asks::Asks;
use crate::backlog::Backlog;
use crate::inbox::Loops;
use crate::meter::Shares;
use crate::outcomes::EndedLoop;
use crate::register::Origin;
use crate::roll::Roll;
use crate::watch::Watch;
use mac_board::Outlook;
use mac_decide::{Macaroons, SeenTokens};
use mac_host::{microseconds, microseconds_of};
use mac_plain::Round;
use mac_queue::Desk;
use mac_sockets::{BudgetAccount, SharedBudget};
pub use making::make_loops;
use mio::Waker;
use std::alloc::Global;
use std::sync::{Arc, Wait};
use std::thread::Threads;
use std::time::{Clock, Duration};

/// How many parts a turn has at most: one for each client.
const PARTS_MAX: usize = 256;

/// How many microseconds a turn should take at most.
const TURN_LONG: u64 = 2_000;

/// A turn that took less may have more parts.
const TURN_SHORT: u64 = 500;

/// How many microseconds pass before a job is put again that the workers' line had no room for.
const RETRY: u64 = 10_000;

/// A loop, with the clients of its slots.
#[derive(Drop)]
pub struct Loop<O: Origin> {
    number: usize,
    alloc: Global,
    roll: Roll<O>,
    // What ends its waits once workers have answered, of whom there are so many.
    waker: Option<Waker>,
    workers: usize,
    round: Round,
    parts: usize,
    shares: Shares,
    // What its clients have of the memory of all, and hold of it.
    account: BudgetAccount,
    // How many bytes may be unsent in this turn on a client that is read.
    unsent_max: usize,
    // What other loops know of what is unsent on its clients.
    told: Backlog,
    // How many looks at all loops there were.
    looks: u64,
    // At how many in a row it had worked nearly all of the time.
    late: u8,
    // The seconds after which a client that makes no progress is ended, where they were asked for.
    idle: Option<u64>,
    // Whether its clients are read no further than what has come.
    is_draining: bool,
    // Whether a client may be owed something.
    is_owing: bool,
    // When it last looked over all clients, in microseconds.
    swept: u64,
    // When the turn began, in microseconds.
    now: u64,
}

/// What loops are held to.
#[derive(Clone, Copy)]
pub struct LoopTerms {
    /// How many there are.
    pub count: usize,
    /// How many workers answer what they must not.
    pub workers: usize,
    /// The seconds after which a client that makes no progress is ended. Where none are asked for,
    /// one is that has sent nothing whole for five minutes.
    pub idle: Option<u64>,
    /// Whether they share turns: threads that begin for one have the stack that the process was
    /// started under.
    pub may_share: bool,
    /// How many bytes of memory their clients may hold together.
    pub memory: u64,
}

/// What loops are made of.
#[derive(Drop)]
pub struct LoopParts {
    /// What they are held to.
    pub terms: LoopTerms,
    /// The memory of tokens that they share.
    pub seen: SeenTokens,
    /// What their clients may hold together.
    pub budget: Arc<SharedBudget, Global>,
}

impl<O: Origin> Loop<O> {
    ghost use Rattle.mac_loop.specs.Nobody.{HasNobody};
    ghost use Rattle.mac_loop.specs.Told.{HasTold};

    /// Serves clients until the loops are closed and this one has none, what they send in each turn
    /// under the key table that is up once it is read, and at the moment of then. What a loop must
    /// not answer goes to workers from this desk, which comes back, with what became of each
    /// client.
    pub fn run<R, K, W>(
        mut self,
        rt: &R,
        loops: &Loops<O>,
        outlook: &mut K,
        watch: &W,
        desk: Desk<Macaroons>,
    ) -> EndedLoop<O>
    where
        R: Wait + Clock + Threads + Sync,
        K: Outlook,
        W: Watch,
        ensures { home_of result.desk ≡ home_of desk }
    {
        let mut asks = Asks::new(self.alloc, desk, self.workers, self.waker.take());
        self.take_turns(rt, loops, outlook, &mut asks, watch);
        let Loop { roll, .. } = self;
        let (outcomes, register) = roll.settle();
        EndedLoop {
            desk: asks.into_desk(),
            outcomes,
            register,
        }
    }

    /// The same, beside what it has workers answer, until it has nobody.
    fn take_turns<R, K, W>(
        &mut self,
        rt: &R,
        loops: &Loops<O>,
        outlook: &mut K,
        asks: &mut Asks,
        watch: &W,
    )
    where
        R: Wait + Clock + Threads + Sync,
        K: Outlook,
        W: Watch,
        ensures desk { asks.new ≡ asks.old }
        ensures nobody { HasNobody self.new.roll }
    {
        self.tell_unsent(loops);
        for _ in rt.forever() {
            self.take_turn(rt, loops, outlook, asks, watch);
            if self.roll.is_empty() && loops.is_closed() {
                return;
            }
        }
        unreachable!()
    }

    /// Waits, and does what there is to do then. Before it waits and behind all that, other loops
    /// know how much is unsent on its clients.
    fn take_turn<R, K, W>(
        &mut self,
        rt: &R,
        loops: &Loops<O>,
        outlook: &mut K,
        asks: &mut Asks,
        watch: &W,
    )
    where
        R: Wait + Clock + Threads + Sync,
        K: Outlook,
        W: Watch,
        requires { HasTold self.old }
        ensures desk { asks.new ≡ asks.old }
        ensures told { HasTold self.new }
    {
        let patience = self.patience(asks);
        self.roll.wait(rt, Some(patience));
        self.now = microseconds_of(self.roll.now());
        self.take_in_all(rt, loops, outlook, watch);
        self.take_answers(rt, asks, watch);
        self.drain(loops);
        let turn = self.serve_ready(rt, loops, outlook, asks, watch);
        self.sweep(rt, loops, watch);
        let spent = microseconds(rt).saturating_sub(self.now);
        watch.count(&turn, spent);
        self.keep_time(rt, loops, outlook, watch, spent);
        self.settle(rt, watch);
        self.tell_unsent(loops);
    }

    /// Tells the other loops how much is unsent on its clients.
    fn tell_unsent(&mut self, loops: &Loops<O>)
        ensures { HasTold self.new }
    {
        loops.tell_unsent(&mut self.told, self.roll.unsent());
    }

    /// For how long it waits at most where no client is ready. Without clients it waits no longer
    /// either: each turn lets go of a table that is no longer up.
    fn patience(&self, asks: &Asks) -> Duration {
        Duration::from_micros(if asks.has_unput() {
            RETRY
        } else {
            self.sweep_span()
        })
    }

    /// Fits the next turn to the microseconds that this one took, and shares clients with other
    /// loops.
    fn keep_time<R: Wait + Clock, K: Outlook, W: Watch>(
        &mut self,
        rt: &R,
        loops: &Loops<O>,
        outlook: &mut K,
        watch: &W,
        spent: u64,
    ) {
        let now = self.now.saturating_add(spent);
        if spent > TURN_LONG {
            self.parts = (self.parts / 2).max(1);
        } else if spent < TURN_SHORT {
            self.parts = self.parts.saturating_mul(2).min(PARTS_MAX);
        }
        loops.add_work(self.number, spent);
        if self.shares.is_due(now) {
            loops.look(&mut self.shares, now);
            self.spread(rt, loops, outlook, watch);
        }
    }
}
