//! A connection of a loop: how far it is answered, and what it waits for.

ghost use Rattle.std.specs.Prelude.{◌≡◌, [], IfSome, IsSome, None, option_map};
ghost use Rattle.http_server.specs.Connection.{config_of, history};
ghost use Rattle.http_server.specs.History.{IsDone, new_history};
ghost use Rattle.mac_gate.specs.Lives.{Lives, way_of};
ghost use Rattle.mac_gate.specs.Load.{held_by};
ghost use Rattle.mac_gate.specs.Patience.{IsLeft};
ghost use Rattle.mac_http.specs.declared.attending.TheConstants.{CONFIG};

use crate::answering::Answering;
use crate::flow::Flow;
use crate::note::HttpNote;
use crate::offer::Offer;
use crate::turning::InTurn;
use http_server::Connection;
use mac_host::DROPPED_MICROS;
use mac_sockets::{Fresh, Holds, Readiness, Stream, Wakes};
use mio::{Registry, Token};
use std::alloc::Global;
use std::io;
use std::io::ErrorKind;
use std::net::Shutdown;
use std::random::RandomSource;
use std::sync::{Arc, Wait};
use std::time::Clock;

/// How many bytes one read takes at most: in a turn, or behind the last response, where they are
/// dropped.
pub const PIECE: usize = 16_384;

/// A connection of a loop. What was written to it is a beginning of HTTP's answers to what was
/// read, and each response is the one that its address offers for its request, by the way that its
/// peer comes. Once it parts, all of it was written. What is read and dropped behind the last
/// response isn't among what came.
#[derive(Drop)]
pub struct HttpConnection {
    pub(crate) stream: Stream,
    // What is offered at its address.
    pub(crate) offer: Arc<Offer, Global>,
    pub(crate) connection: Box<Connection>,
    pub(crate) flow: Flow,
    pub(crate) note: HttpNote,
    ghost lives: { ∥ Lives offer.value (way_of stream) flow [] connection.value ∥₁ },
    ghost all: { IsSome note.parting → ∥ IsDone (history connection.value) ∥₁ },
}

impl HttpConnection {
    ghost use Rattle.mac_gate.specs.Answered.{TakesTurn, known_to};
    ghost use Rattle.mac_gate.specs.Going.{GoesOn, past_of};

    /// A connection that begins now, by this machine of HTTP, which has done nothing.
    pub fn new(
        alloc: Global,
        stream: Fresh,
        offer: Arc<Offer, Global>,
        connection: Box<Connection>,
        now: u64,
    ) -> HttpConnection
        requires fresh { history connection.value ≡ new_history }
        requires config { config_of connection.value ≡ CONFIG }
        ensures { result.offer.value ≡ offer.value }
    {
        let (stream, flow) = Flow::begin(alloc, stream);
        HttpConnection {
            stream,
            offer,
            connection,
            flow,
            note: HttpNote::new(now),
        }
    }

    /// Has a poll tell of what comes, under this token.
    pub fn join(&self, registry: &Registry, token: Token) -> io::Result<()> {
        self.stream.hurry()?;
        self.stream.join(registry, token)
    }

    /// Has a poll tell of room to write too, while that is waited for.
    pub fn update(&mut self, registry: &Registry, token: Token) -> io::Result<()>
        ensures { past_of self.new ≡ past_of self.old }
    {
        let awaits = self.connection.wants_write() && !self.note.has_room;
        if awaits == self.note.awaits_room {
            return Ok(());
        }
        self.note.awaits_room = awaits;
        self.stream.await_room(registry, token, awaits)
    }

    /// Whether it may be owed something: a response, or to be read on in a request that has begun,
    /// or since its last read gave some bytes.
    pub fn is_owed(&self) -> bool {
        self.connection.wants_write() || !self.note.weight.is_idle() || self.note.has_come
    }

    /// Whether a turn may do something.
    pub fn is_ready(&self) -> bool {
        if self.note.parting.is_none() && self.connection.wants_write() {
            self.note.has_room
        } else {
            self.note.has_more
        }
    }

    /// Whether a turn may answer a dear request.
    pub fn is_dear(&self) -> bool {
        self.note.parting.is_none() && self.note.weight.is_dear()
    }

    /// It waits for a turn among those with a dear request, since now unless it does already.
    pub fn begin_wait(&mut self, now: u64)
        ensures { past_of self.new ≡ past_of self.old }
    {
        if self.note.waits_since.is_none() {
            self.note.waits_since = Some(now);
        }
    }

    /// Whether it waits for a turn among those with a dear request.
    pub fn is_waiting(&self) -> bool {
        self.note.waits_since.is_some()
    }

    /// It waits for a turn no more. Since when it did, in microseconds.
    pub fn end_wait(&mut self) -> Option<u64>
        ensures { past_of self.new ≡ past_of self.old }
    {
        self.note.waits_since.take()
    }

    /// Takes nothing more from the peer than what has come, where the connection is idle.
    pub fn end_if_idle(&mut self)
        ensures { past_of self.new ≡ past_of self.old }
    {
        if self.note.weight.is_idle() && !self.note.is_closing && self.note.parting.is_none() {
            self.stream.shut(Shutdown::Read);
            self.note.is_closing = true;
            self.note.has_more = true;
        }
    }

    /// What is left now of the time that the peer may take, if anything.
    pub fn left(&self, patience: u64, now: u64) -> Option<u64> {
        let limit = match self.note.parting {
            Some(_) => DROPPED_MICROS,
            None => patience,
        };
        left_of(limit, now.saturating_sub(self.note.since))
    }

    /// In how many microseconds what came in small pieces is looked at, where something is put off
    /// and no look at it is noted. From then on one is.
    pub fn put_off(&mut self) -> Option<u64>
        ensures { past_of self.new ≡ past_of self.old }
    {
        if self.note.is_put_off {
            return None;
        }
        let due_in = self.flow.gathered.due_in()?;
        self.note.is_put_off = true;
        Some(due_in)
    }

    /// The look comes that was noted.
    pub fn take_up(&mut self)
        ensures { past_of self.new ≡ past_of self.old }
    {
        self.note.is_put_off = false;
    }

    /// Does what can be done without waiting: what is read is put into the piece. None where it has
    /// ended.
    pub fn advance<R: Wait + Clock + RandomSource>(
        self,
        answering: &mut Answering<'_, R>,
        now: u64,
        piece: &mut [u8],
    ) -> Option<HttpConnection>
        ensures goes_on { IfSome result (λ after. GoesOn (past_of self) (past_of after)) }
        ensures turn { TakesTurn (past_of self) (option_map past_of result)
            (known_to answering.old.keys) (known_to answering.new.keys) }
    {
        if self.note.parting.is_none() {
            return self.answer(answering, now, piece);
        }
        let mut parting = self;
        if parting.drop_piece(now, piece) {
            Some(parting)
        } else {
            None
        }
    }

    /// Takes a turn: where nothing is left to be sent it reads once. A fault ends the connection.
    fn answer<R: Wait + Clock + RandomSource>(
        self,
        answering: &mut Answering<'_, R>,
        now: u64,
        piece: &mut [u8],
    ) -> Option<HttpConnection>
        requires { self.note.parting ≡ None }
        ensures goes_on { IfSome result (λ after. GoesOn (past_of self) (past_of after)) }
        ensures turn { TakesTurn (past_of self) (option_map past_of result)
            (known_to answering.old.keys) (known_to answering.new.keys) }
    {
        let HttpConnection {
            stream,
            offer,
            connection,
            mut flow,
            mut note,
        } = self;
        if connection.wants_write() {
            let turn = InTurn {
                stream,
                offer,
                connection,
                flow,
                note,
            };
            return turn.answer(answering, now, &[]);
        }
        let heard = flow.read(&stream, piece, note.read_limit(), now);
        note.hear(&heard);
        let turn = InTurn {
            stream,
            offer,
            connection,
            flow,
            note,
        };
        match heard.outcome {
            Ok(told) => turn.answer(answering, now, &piece[..told]),
            Err(fault) if fault.kind() == ErrorKind::WouldBlock => Some(turn.end()),
            Err(_) => None,
        }
    }

    /// Drops what has come behind the last response. It ends after some reads.
    fn drop_piece(&mut self, now: u64, piece: &mut [u8]) -> bool
        ensures { past_of self.new ≡ past_of self.old }
    {
        let Some(left) = self.note.parting else {
            return false;
        };
        match self.stream.read_past_signals(piece) {
            Ok(count) if count > 0 && left > 0 => {
                self.note.parting = Some(left.saturating_sub(1));
                self.note.since = now;
                true
            }
            Err(fault) if fault.kind() == ErrorKind::WouldBlock => {
                self.note.has_more = false;
                true
            }
            Ok(_) | Err(_) => false,
        }
    }
}

impl Holds for HttpConnection {
    ghost bytes = { λ one. held_by one.note.load };

    fn held(&self) -> u64 {
        self.note.load.held()
    }

    // When something was written last, or it began.
    fn since(&self) -> u64 {
        self.note.since
    }
}

impl Wakes for HttpConnection {
    ghost use Rattle.mac_gate.specs.Going.{past_of};

    ghost alike = { λ one other. past_of other ≡ past_of one };

    fn wake(&mut self, told: Readiness) -> bool {
        self.note.has_more = self.note.has_more || told.reads || told.closes;
        self.note.has_room = self.note.has_room || told.writes;
        self.note.is_closing = self.note.is_closing || told.closes;
        self.is_ready()
    }
}

/// What is left of a limit once so long has passed, if anything.
fn left_of(limit: u64, passed: u64) -> Option<u64>
    ensures { IsLeft limit passed result }
{
    match limit.checked_sub(passed) {
        Some(left) if left > 0 => Some(left),
        _ => None,
    }
}
