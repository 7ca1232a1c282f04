//! A loop: a thread's turns over its connections.

ghost use Rattle.std.specs.Prelude.{◌≡◌, IfOk, IfSome};
ghost use Rattle.mac_gate.specs.Answered.{GoesByTurns, known_to};
ghost use Rattle.mac_gate.specs.Going.{AreOffered, StayInPlace, count_there};

use crate::answering::Answering;
use crate::connection::{HttpConnection, PIECE};
use crate::content::Content;
use crate::offer::Offer;
use crate::shared::{Newcomer, Shared};
use crate::waiting::Waiting;
use http_server::Connection;
use mac_board::Follower;
use mac_host::{microseconds, microseconds_of};
use mac_http::CONFIG;
use mac_sockets::{Fresh, STACK, SharedBudget};
use mio::Waker;
use std::alloc::Global;
use std::hash::RandomState;
use std::io;
use std::net::Net;
use std::random::RandomSource;
use std::snapshot::Snapshot;
use std::sync::{Arc, Wait};
use std::thread::{Builder, Promise, PromisedHandle, Threads};
use std::time::{Clock, Duration};

/// How many connections a loop takes in between two turns at most.
const NEWCOMERS_MAX: usize = 64;

/// A loop with its connections: the same is offered to each of them.
#[derive(Drop)]
pub struct HttpLoop {
    number: usize,
    offer: Arc<Offer, Global>,
    // Follows the key tables, where a daemon answers, until the loop is served.
    keys: Option<Follower>,
    connections: Waiting,
    // What comes is read into this.
    piece: Vec<u8>,
    ghost offered: { ∥ AreOffered offer.value connections.connections.slots ∥₁ },
}

/// What the loop of a thread offers, from its begin to its end. It ends with nobody.
#[derive(Drop)]
pub struct Offering {
    pub offer: Snapshot<Offer>,
}

impl Promise<Snapshot<HttpLoop>> for Offering {
    ghost use Rattle.std.specs.Prelude.{◌≡◌};
    ghost use Rattle.mac_gate.specs.Going.{count_there};

    ghost kept_by = { λ p end. (end.value.offer.value ≡ p.offer.value)
        × (count_there end.value.connections.connections.slots ≡ 0) };
}

/// The thread of a loop.
pub type Looping = PromisedHandle<Snapshot<HttpLoop>, Offering>;

impl HttpLoop {
    /// A loop of this number that offers this, whose connections' peers may each take so long and
    /// hold memory within this budget, with what ends its waits.
    pub fn new<R: Net + Wait>(
        rt: &R,
        alloc: Global,
        number: usize,
        content: Content,
        patience: Duration,
        budget: &Arc<SharedBudget, Global>,
    ) -> io::Result<(HttpLoop, Waker)>
        ensures { IfOk result (λ made. made.0.offer.value ≡ content.offer.value) }
    {
        let Content { offer, keys } = content;
        let (connections, waker) = Waiting::new(rt, alloc, microseconds_of(patience), budget)?;
        let mut piece = Vec::new(alloc);
        piece.resize(PIECE, 0)?;
        let own = HttpLoop {
            number,
            offer,
            keys,
            connections,
            piece,
        };
        Ok((own, waker))
    }

    /// Starts a thread that serves the loop's connections, until the server is closed and the last
    /// one has gone; if there is such a thread.
    pub fn start<R>(self, rt: R, alloc: Global, server: Arc<Shared, Global>) -> Option<Looping>
    where
        R: Threads + Wait + Clock + RandomSource + Sync + Copy + Send + 'static,
        ensures { IfSome result (λ looping. looping.promise.offer.value ≡ self.offer.value) }
    {
        let offering = Offering {
            offer: Snapshot::of(&*self.offer),
        };
        let work = move || -> Snapshot<HttpLoop>
            ensures offer { result.value.offer.value ≡ self.offer.value }
            ensures nobody { count_there result.value.connections.connections.slots ≡ 0 }
        {
            let mut own = self;
            own.serve(&rt, alloc, &server);
            Snapshot::of(&own)
        };
        Builder::new()
            .stack_size(STACK)
            .spawn_with(&rt, offering, work)
            .ok()
    }

    /// Serves the loop's connections to the end of the last one.
    fn serve<R: Wait + Clock + RandomSource>(&mut self, rt: &R, alloc: Global, server: &Shared)
        ensures offer { self.new.offer ≡ self.old.offer }
        ensures nobody { count_there self.new.connections.connections.slots ≡ 0 }
    {
        let keys = self.keys.take();
        let mut answering = Answering {
            since: 0,
            rt,
            alloc,
            server,
            keys,
        };
        self.run(rt, &mut answering);
    }

    /// Serves the loop's connections, which this answers by what is offered to them, to the end of
    /// the last one.
    fn run<R: Wait + Clock + RandomSource>(&mut self, rt: &R, answering: &mut Answering<'_, R>)
        ensures offer { self.new.offer ≡ self.old.offer }
        ensures nobody { count_there self.new.connections.connections.slots ≡ 0 }
        ensures turns { GoesByTurns (known_to answering.old.keys) (known_to answering.new.keys) }
    {
        let (alloc, server) = (answering.alloc, answering.server);
        for _ in rt.forever() {
            self.connections.wait(rt);
            // Behind the last arrival the server is closed.
            let is_closed = server.is_closed();
            // What has come is answered before a newcomer has somebody give way.
            self.advance_ready(rt, server, answering);
            let are_all_in = self.take_in_waiting(rt, alloc, server);
            self.sweep(rt, server);
            self.settle(rt, server);
            let is_over = is_closed && are_all_in && self.connections.count() == 0;
            if is_over {
                return;
            }
        }
    }

    /// Takes in connections that were handed over: all of them, or as many as a loop takes between
    /// two turns, and comes back for the others. Whether it has them all.
    fn take_in_waiting<R: Wait + Clock + RandomSource>(
        &mut self,
        rt: &R,
        alloc: Global,
        server: &Shared,
    ) -> bool
        ensures { self.new.offer ≡ self.old.offer }
    {
        for count in 0..NEWCOMERS_MAX {
            let Some(newcomer) = server.take(rt, self.number) else {
                if count > 0 {
                    server.note_stalest(self.number, self.connections.stalest_since());
                }
                return true;
            };
            self.receive(rt, alloc, server, newcomer);
        }
        server.note_stalest(self.number, self.connections.stalest_since());
        server.wake(self.number);
        false
    }

    /// Takes a connection in that was handed over. Where one is to give way to it, that is the one
    /// to which nothing was sent for longest; without any, it is closed itself.
    fn receive<R: Wait + Clock + RandomSource>(
        &mut self,
        rt: &R,
        alloc: Global,
        server: &Shared,
        newcomer: Newcomer,
    )
        ensures { self.new.offer ≡ self.old.offer }
    {
        let Newcomer { stream, displaces } = newcomer;
        if displaces && !self.connections.drop_stalest() {
            return;
        }
        if !self.takes_in(rt, alloc, stream) {
            server.leave(rt, self.number);
        }
    }

    /// Takes a connection in. Whether that could be.
    fn takes_in<R: Clock + RandomSource>(&mut self, rt: &R, alloc: Global, stream: Fresh) -> bool
        ensures { self.new.offer ≡ self.old.offer }
    {
        let Ok(offer) = Arc::try_clone(&self.offer) else {
            return false;
        };
        let Ok(secrets) = RandomState::new(rt) else {
            return false;
        };
        let Ok(connection) = Box::new(alloc, Connection::new(alloc, secrets, CONFIG)) else {
            return false;
        };
        let one = HttpConnection::new(alloc, stream, offer, connection, microseconds(rt));
        self.connections.begin(one)
    }

    /// Has those that are ready do what they can, once each; but of those with a dear request only
    /// the next one, behind the others. Where there is no memory for a turn, none has one.
    fn advance_ready<R: Wait + Clock + RandomSource>(
        &mut self,
        rt: &R,
        server: &Shared,
        answering: &mut Answering<'_, R>,
    )
        ensures offer { self.new.offer ≡ self.old.offer }
        ensures turns { GoesByTurns (known_to answering.old.keys) (known_to answering.new.keys) }
    {
        if server.is_ending() {
            self.connections.end_idle();
        }
        let ready = self.connections.count_ready();
        for turn in 0..=ready {
            if !self.connections.has_room(rt) {
                break;
            }
            self.advance_next(rt, server, answering, turn < ready);
        }
    }

    /// Has the next one that is ready do what it can, or the next one with a dear request.
    fn advance_next<R: Wait + Clock + RandomSource>(
        &mut self,
        rt: &R,
        server: &Shared,
        answering: &mut Answering<'_, R>,
        is_ready: bool,
    )
        ensures offer { self.new.offer ≡ self.old.offer }
        ensures turns { GoesByTurns (known_to answering.old.keys) (known_to answering.new.keys) }
    {
        let next = if is_ready {
            self.connections.next_ready()
        } else {
            self.connections.next_dear()
        };
        let Some(slot) = next else {
            return;
        };
        self.advance(rt, server, answering, slot);
    }

    /// Gives back what turns haven't taken, and what those had who have left. Where some loop lacks
    /// more than connections leave, those here that hold most are let go, as long as they hold
    /// much; else a loop that lacks memory waits for others.
    fn settle<R: Wait + Clock>(&mut self, rt: &R, server: &Shared)
        ensures { self.new.offer ≡ self.old.offer }
    {
        self.connections.settle(rt);
        let mut has_ended = false;
        for _ in rt.forever() {
            if !self.connections.drop_heaviest(rt) {
                break;
            }
            server.host().tell_heavy(rt);
            server.leave(rt, self.number);
            has_ended = true;
        }
        if !has_ended {
            self.connections.await_others(rt);
        }
    }

    /// Has the connection of a slot do what it can.
    fn advance<R: Wait + Clock + RandomSource>(
        &mut self,
        rt: &R,
        server: &Shared,
        answering: &mut Answering<'_, R>,
        slot: usize,
    )
        ensures offer { self.new.offer ≡ self.old.offer }
        ensures stay { StayInPlace self.old.connections.connections.slots
            self.new.connections.connections.slots }
        ensures turns { GoesByTurns (known_to answering.old.keys) (known_to answering.new.keys) }
    {
        let is_ending = server.is_ending();
        let piece = self.piece.as_mut_slice();
        if !self.connections.advance(slot, answering, is_ending, piece) {
            return;
        }
        server.leave(rt, self.number);
    }

    /// Looks at all connections, where it is time for that, and lets those go whose peers have
    /// taken too long.
    fn sweep<R: Wait>(&mut self, rt: &R, server: &Shared)
        ensures { self.new.offer ≡ self.old.offer }
    {
        if !self.connections.begins_look() {
            return;
        }
        for slot in 0..self.connections.bound() {
            if self.connections.look(slot) {
                server.leave(rt, self.number);
            }
        }
        server.note_stalest(self.number, self.connections.stalest_since());
    }
}
