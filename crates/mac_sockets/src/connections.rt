//! The connections of a loop: a thread waits for what its poll tells of them, and takes turns over
//! those that are ready.

ghost use Rattle.std.specs.Borrow.{sem};
ghost use Rattle.std.specs.Option.{option_copied_mut};
ghost use Rattle.std.specs.Prelude.{◌≡◌, ℕ, IfOk};
ghost use Rattle.mac_slots.specs.Slots.{at, held, no_slots};
ghost use Rattle.mac_sockets.specs.Connections.{StayAlike, count_held, weighed};

use mac_slots::Slots;
use mio::{Events, Poll, Registry, Token, Waker};
use std::alloc::Global;
use std::io;
use std::net::Net;
use std::time::{Clock, Duration};

/// The token of what wakes a loop, which no slot has.
const WAKER: usize = 1 << 40;

/// How many events are taken at a time.
const EVENTS: usize = 256;

/// How many microseconds a connection has rested at least that gives way to another one of its
/// socket.
pub const REST_MIN: u64 = 250_000;

/// What may be so of a connection's socket.
#[derive(Clone, Copy, Debug, PartialEq, Eq)]
pub struct Readiness {
    /// Something has come: bytes, an end or a fault.
    pub reads: bool,
    /// There is room to write.
    pub writes: bool,
    /// The peer writes no more.
    pub closes: bool,
}

impl Readiness {
    /// What is tried where no event was told, lest one was missed.
    pub const UNTOLD: Readiness = Readiness {
        reads: true,
        writes: true,
        closes: false,
    };
}

/// A connection that waits for what comes, or for room to write.
pub trait Wakes {
    /// What it weighs: a number of which its loop keeps the sum, and which no event changes.
    ghost weight: { Self → ℕ } = { λ _. 0 };

    /// Which other connections it is like, in what no event changes.
    ghost alike: { Self → Self → Type 0 } = { λ _ _. Unit {0} };

    /// Notes what may be so of its socket. Whether it is ready for a turn.
    fn wake(&mut self, told: Readiness) -> bool
        ensures weight { weight self.new ≡ weight self.old }
        ensures alike { (one : Self) → alike one self.old → alike one self.new };
}

/// The connections of a loop in their slots, and the poll that tells of them.
#[derive(Drop)]
pub struct Connections<C> {
    /// The slots, and which of them are ready.
    pub slots: Slots<C>,
    poll: Poll,
    events: Events,
    now: Duration,
}

impl<C: Wakes + Drop> Connections<C> {
    ghost use Rattle.mac_sockets.specs.Lends.{lends_connection};

    /// No connections, and what ends the waits for them.
    pub fn new<R: Net>(rt: &R, alloc: Global) -> io::Result<(Connections<C>, Waker)>
        ensures { IfOk result (λ made. made.0.slots ≡ no_slots) }
    {
        let poll = Poll::new(rt)?;
        let waker = Waker::new(poll.registry(), Token(WAKER))?;
        let connections = Connections {
            slots: Slots::new(alloc),
            poll,
            events: Events::with_capacity(alloc, EVENTS)?,
            now: Duration::from_secs(0),
        };
        Ok((connections, waker))
    }

    /// Where each is registered, under the number of its slot.
    pub fn registry(&self) -> &Registry {
        self.poll.registry()
    }

    /// A further one that ends the waits.
    pub fn waker(&self) -> io::Result<Waker> {
        Waker::new(self.poll.registry(), Token(WAKER))
    }

    /// When the last wait ended, on a clock that begins anywhere.
    pub fn now(&self) -> Duration {
        self.now
    }

    /// Waits until something is told, for so long at most, and lists the slots that are ready then.
    /// Where some are ready still, it only looks.
    pub fn wait<R: Clock>(&mut self, rt: &R, patience: Option<Duration>)
        ensures count { count_held self.new.slots ≡ count_held self.old.slots }
        ensures weight { weighed C.weight self.new.slots ≡ weighed C.weight self.old.slots }
        ensures alike { StayAlike C.alike self.old.slots self.new.slots }
    {
        let patience = if self.slots.has_ready() {
            Some(Duration::from_secs(0))
        } else {
            patience
        };
        let _ = self.poll.poll(&mut self.events, patience);
        self.now = rt.monotonic().unwrap_or(self.now);
        for event in self.events.iter() {
            let told = Readiness {
                reads: event.is_readable() || event.is_error(),
                writes: event.is_writable() || event.is_error() || event.is_write_closed(),
                closes: event.is_read_closed(),
            };
            wake(&mut self.slots, event.token().0, told);
        }
    }

    /// The connection that a slot holds, to be changed in its place.
    pub fn get_mut(&mut self, slot: usize) -> Option<&mut C>
        ensures value { option_copied_mut result ≡ held (at self.old.slots slot) }
        ensures* changed { sem 𝓛 (lends_connection C.row self.entry slot result) }
    {
        self.slots.get_mut(slot)
    }

    /// Has the connection of a slot note what may be so of its socket, and lists the slot where it
    /// is ready.
    pub fn wake(&mut self, slot: usize, told: Readiness)
        ensures count { count_held self.new.slots ≡ count_held self.old.slots }
        ensures weight { weighed C.weight self.new.slots ≡ weighed C.weight self.old.slots }
        ensures alike { StayAlike C.alike self.old.slots self.new.slots }
    {
        wake(&mut self.slots, slot, told);
    }
}

fn wake<C: Wakes + Drop>(slots: &mut Slots<C>, slot: usize, told: Readiness)
    ensures count { count_held slots.new ≡ count_held slots.old }
    ensures weight { weighed C.weight slots.new ≡ weighed C.weight slots.old }
    ensures alike { StayAlike C.alike slots.old slots.new }
{
    let Some(connection) = slots.get_mut(slot) else {
        return;
    };
    if connection.wake(told) {
        slots.list(slot);
    }
}
