//! What loops share: where each gets clients from, how busy each is, and what is unsent on all.

ghost use Rattle.std.specs.Prelude.{◌≡◌, ◌+◌, ◌++◌, ◌∷◌, [], IfErr, IfNone, IfOk, IfSome, OnOk};
ghost use Rattle.mac_loop.specs.Made.{count_sides};
ghost use Rattle.mac_loop.specs.Register.{who};

use crate::backlog::Backlog;
use crate::handover::Handover;
use crate::meter::{Meter, Shares};
use crate::register::Origin;
use mac_host::{Badge, DISPLACING_MAX, Socket};
use mac_plain::UNSENT_MAX;
use mac_queue::History;
use mac_sockets::{Inbox, REST_MIN};
use std::alloc::{AllocError, Global};
use std::sync::Wait;
use std::sync::atomic::Ordering::SeqCst;
use std::sync::atomic::{AtomicBool, AtomicU64, AtomicUsize};
use std::thread;
use std::time::{Clock, Duration};

/// How many bytes may be unsent on all clients before each may have less.
const UNSENT_ALL: u64 = 67_108_864;

/// They are no more than one part of so many of the memory that clients have.
const UNSENT_PART: u64 = 4;

/// How much may be unsent on a client then.
const UNSENT_LITTLE: usize = 65_536;

/// How many clients a loop takes in between two turns. Where more wait for it, no further one is to
/// be accepted.
pub const NEWCOMERS_MAX: usize = 64;

/// How many milliseconds pass until it is looked again whether fewer wait.
const PAUSE_MILLIS: u64 = 1;

/// Since when the client of a loop has rested that rests longest of those that came in at a socket,
/// as far as the loop looked; the greatest number where there is none.
#[derive(Drop)]
struct Stalest {
    main: AtomicU64,
    side: AtomicU64,
}

/// How many clients of each socket are on their way that others are to give way to.
#[derive(Drop)]
struct Displacing {
    main: AtomicUsize,
    side: AtomicUsize,
}

/// Shows that a client was put into the inbox of a loop: nothing but [`Loops::hand`] makes one.
#[derive(Drop)]
pub struct Enqueued {
    badge: Badge,
}

impl Enqueued {
    /// What the client is known by.
    pub fn badge(&self) -> &Badge
        ensures { result.now ≡ self.now.badge }
    {
        &self.badge
    }
}

/// A loop, as others see it.
#[derive(Drop)]
struct LoopSide<O: Origin> {
    inbox: Inbox<Handover<O>>,
    // How many clients wait in it.
    waiting: AtomicUsize,
    meter: Meter,
    stalest: Stalest,
}

impl Stalest {
    fn new() -> Stalest {
        Stalest {
            main: AtomicU64::new(u64::MAX),
            side: AtomicU64::new(u64::MAX),
        }
    }

    fn at(&self, socket: Socket) -> &AtomicU64 {
        match socket {
            Socket::Main => &self.main,
            Socket::Side => &self.side,
        }
    }
}

impl Displacing {
    fn none() -> Displacing {
        Displacing {
            main: AtomicUsize::new(0),
            side: AtomicUsize::new(0),
        }
    }

    fn at(&self, socket: Socket) -> &AtomicUsize {
        match socket {
            Socket::Main => &self.main,
            Socket::Side => &self.side,
        }
    }
}

/// The loops of a daemon, as others see them.
#[derive(Drop)]
pub struct Loops<O: Origin> {
    sides: Vec<LoopSide<O>>,
    // Whether a turn may be answered by several threads.
    may_share: bool,
    // How many loops are in a turn.
    busy: AtomicUsize,
    displacing: Displacing,
    // How many bytes are unsent on all clients: the sum of what each loop has told of its own.
    unsent: AtomicU64,
    // How many bytes may be unsent on all clients before each may have less.
    unsent_all: u64,
    is_draining: AtomicBool,
    is_closed: AtomicBool,
}

impl<O: Origin> Loops<O> {
    /// No loops yet, whose turns may be answered by several threads, or not, and whose clients have
    /// so many bytes of memory together.
    pub fn new(alloc: Global, may_share: bool, memory: u64) -> Loops<O>
        ensures { count_sides result ≡ 0 }
    {
        Loops {
            sides: Vec::new(alloc),
            may_share,
            busy: AtomicUsize::new(0),
            displacing: Displacing::none(),
            unsent: AtomicU64::new(0),
            unsent_all: UNSENT_ALL.min(memory / UNSENT_PART),
            is_draining: AtomicBool::new(false),
            is_closed: AtomicBool::new(false),
        }
    }

    /// One loop more, which gets clients from this inbox.
    pub fn push(&mut self, inbox: Inbox<Handover<O>>) -> Result<(), AllocError>
        ensures { OnOk result (count_sides self.new ≡ count_sides self.old + 1) }
    {
        self.sides.push(LoopSide {
            inbox,
            waiting: AtomicUsize::new(0),
            meter: Meter::new(),
            stalest: Stalest::new(),
        })?;
        Ok(())
    }

    /// How many loops there are.
    pub fn len(&self) -> usize {
        self.sides.len()
    }

    /// Hands a client to a loop. Without memory it comes back.
    pub fn hand<R: Wait>(
        &self,
        rt: &R,
        number: usize,
        client: Handover<O>,
    ) -> Result<Enqueued, Handover<O>>
        ensures handed { IfOk result (λ enqueued. enqueued.badge ≡ client.badge) }
        ensures back { IfErr result (λ back. back ≡ client) }
    {
        let Some(side) = self.sides.get(number) else {
            return Err(client);
        };
        let badge = client.badge;
        side.waiting.fetch_add(1, SeqCst);
        match side.inbox.push(rt, client) {
            Ok(()) => Ok(Enqueued { badge }),
            Err(client) => {
                side.waiting.fetch_sub(1, SeqCst);
                Err(client)
            }
        }
    }

    /// Waits while more clients wait for a loop than it takes in between two turns.
    pub fn await_taken<R: Wait + Clock>(&self, rt: &R, number: usize) {
        for _ in rt.forever() {
            match self.sides.get(number) {
                Some(side) if side.waiting.load(SeqCst) >= NEWCOMERS_MAX => {
                    thread::sleep(rt, Duration::from_millis(PAUSE_MILLIS));
                }
                _ => return,
            }
        }
    }

    /// Hands a client to the loop of which one of a socket is to give way to it. It comes back
    /// without memory, where none of its own socket has rested for long enough to give way to it,
    /// and where as many of its socket are on their way so as may be.
    pub fn hand_displacing<R: Wait>(
        &self,
        rt: &R,
        socket: Socket,
        client: Handover<O>,
    ) -> Result<Enqueued, Handover<O>>
        ensures handed { IfOk result (λ enqueued. enqueued.badge ≡ client.badge) }
        ensures back { IfErr result (λ back. who back.presence ≡ who client.presence) }
    {
        let (number, since) = self.stalest(socket);
        let is_own = client.badge.socket == socket;
        if is_own && client.since.saturating_sub(since) < REST_MIN {
            return Err(client);
        }
        let displacing = self.displacing.at(client.badge.socket);
        if displacing.fetch_add(1, SeqCst) >= DISPLACING_MAX {
            displacing.fetch_sub(1, SeqCst);
            return Err(client);
        }
        let mut client = client;
        client.displaces = Some(socket);
        let left = self.hand(rt, number, client);
        if left.is_err() {
            displacing.fetch_sub(1, SeqCst);
        }
        left
    }

    /// The next client that was handed to a loop. That the loop was given it is noted.
    pub fn take<R: Wait>(
        &self,
        rt: &R,
        number: usize,
        given: &mut History<Badge>,
    ) -> Option<Handover<O>>
        ensures none { IfNone result (given.new ≡ given.old) }
        ensures one { IfSome result (λ client. given.new ≡ given.old ++ client.badge ∷ []) }
    {
        let side = self.sides.get(number)?;
        let client = side.inbox.pop(rt)?;
        given.add(&client.badge);
        side.waiting.fetch_sub(1, SeqCst);
        if client.displaces.is_some() {
            self.displacing.at(client.badge.socket).fetch_sub(1, SeqCst);
        }
        Some(client)
    }

    /// Has a loop look once more for what was handed to it.
    pub fn wake(&self, number: usize) {
        if let Some(side) = self.sides.get(number) {
            side.inbox.wake();
        }
    }

    /// A loop notes since when the client has rested that rests longest of those of a socket, where
    /// it has any.
    pub fn note_stalest(&self, number: usize, socket: Socket, since: Option<u64>) {
        if let Some(side) = self.sides.get(number) {
            side.stalest
                .at(socket)
                .store(since.unwrap_or(u64::MAX), SeqCst);
        }
    }

    /// A loop notes since when one more of a socket has rested.
    pub fn note_rest(&self, number: usize, socket: Socket, since: u64) {
        if let Some(side) = self.sides.get(number) {
            let stalest = side.stalest.at(socket);
            if since < stalest.load(SeqCst) {
                stalest.store(since, SeqCst);
            }
        }
    }

    /// The loop whose clients include the one that has rested longest of those of a socket, and
    /// since when that has.
    fn stalest(&self, socket: Socket) -> (usize, u64) {
        let (mut found, mut earliest) = (0, u64::MAX);
        for (number, side) in self.sides.iter().enumerate() {
            let since = side.stalest.at(socket).load(SeqCst);
            if since < earliest {
                (found, earliest) = (number, since);
            }
        }
        (found, earliest)
    }

    /// A loop begins a turn. How many threads it may answer with: those of loops that rest are
    /// shared out to those that don't.
    pub fn begin_turn(&self) -> usize {
        let busy = self.busy.fetch_add(1, SeqCst).saturating_add(1);
        if self.may_share {
            self.len() / busy.max(1)
        } else {
            1
        }
    }

    /// A loop ends a turn.
    pub fn end_turn(&self) {
        self.busy.fetch_sub(1, SeqCst);
    }

    /// Adds what a turn of a loop took.
    pub fn add_work(&self, number: usize, microseconds: u64) {
        if let Some(side) = self.sides.get(number) {
            side.meter.add(microseconds);
        }
    }

    /// Takes a look at how busy all loops are.
    pub fn look(&self, shares: &mut Shares, now: u64) {
        for (number, side) in self.sides.iter().enumerate() {
            shares.look(now, number, side.meter.worked());
        }
        shares.finish(now);
    }

    /// How many bytes may be unsent on a client that is read: less, once much is unsent on all.
    pub fn unsent_max(&self) -> usize {
        if self.unsent.load(SeqCst) < self.unsent_all {
            UNSENT_MAX
        } else {
            UNSENT_LITTLE
        }
    }

    /// A loop that has told so much tells how much is unsent on its clients now.
    pub fn tell_unsent(&self, told: &mut Backlog, now: Backlog)
        ensures { told.new ≡ now }
    {
        let more = told.replace(now);
        if more != 0 {
            self.unsent.fetch_add(more, SeqCst);
        }
    }

    /// Has the loops take no more from clients than what has come. Each client ends once that is
    /// answered and its replies are sent.
    pub fn drain(&self) {
        self.is_draining.store(true, SeqCst);
        self.wake_all();
    }

    /// Whether clients end once what has come is answered.
    pub fn is_draining(&self) -> bool {
        self.is_draining.load(SeqCst)
    }

    /// Has each loop return that has no clients.
    pub fn close(&self) {
        self.is_closed.store(true, SeqCst);
        self.wake_all();
    }

    fn wake_all(&self) {
        for side in self.sides.iter() {
            side.inbox.wake();
        }
    }

    /// Whether the loops are to return.
    pub fn is_closed(&self) -> bool {
        self.is_closed.load(SeqCst)
    }
}
