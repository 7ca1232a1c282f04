//! A connection in its turn.

ghost use Rattle.std.specs.Prelude.{◌≡◌, [], IfSome, IsSome, None, option_map};
ghost use Rattle.http_server.specs.Connection.{history};
ghost use Rattle.http_server.specs.History.{IsDone};
ghost use Rattle.mac_gate.specs.Lives.{Lives, way_of};

use crate::answering::Answering;
use crate::connection::HttpConnection;
use crate::devices::Spoken;
use crate::flow::Flow;
use crate::note::HttpNote;
use crate::offer::Offer;
use http_server::Connection;
use mac_http::Way;
use mac_sockets::Stream;
use std::alloc::Global;
use std::io;
use std::io::ErrorKind;
use std::net::Shutdown;
use std::random::RandomSource;
use std::sync::{Arc, Wait};
use std::time::Clock;

/// A connection in its turn, of which something came that isn't answered yet.
#[derive(Drop)]
pub struct InTurn {
    pub stream: Stream,
    pub offer: Arc<Offer, Global>,
    pub connection: Box<Connection>,
    pub flow: Flow,
    pub note: HttpNote,
}

impl InTurn {
    ghost use Rattle.mac_gate.specs.Answered.{TakesTurn, known_to};
    ghost use Rattle.mac_gate.specs.Going.{GoesOn, past_in_turn, past_of};

    /// Answers what was heard, and writes once. A fault ends the connection. Behind the last
    /// response no more is written: what still comes is read and dropped, so that the peer reads
    /// that response and no reset.
    pub fn answer<R: Wait + Clock + RandomSource>(
        self,
        answering: &mut Answering<'_, R>,
        now: u64,
        heard: &[u8],
    ) -> Option<HttpConnection>
        requires goes_on { self.note.parting ≡ None }
        requires lives { ∥ Lives self.offer.value (way_of self.stream) self.flow heard.now
            self.connection.value ∥₁ }
        ensures goes_on { IfSome result (λ after. GoesOn (past_in_turn self) (past_of after)) }
        ensures turn { TakesTurn (past_in_turn self) (option_map past_of result)
            (known_to answering.old.keys) (known_to answering.new.keys) }
    {
        let InTurn {
            stream,
            offer,
            mut connection,
            flow,
            mut note,
        } = self;
        let Flow {
            mut gathered,
            came,
            went,
        } = flow;
        let mut left = heard;
        let mut spoken = Spoken::new(&stream, went, note.has_room);
        let way = way_of(&stream);
        let turned = answering.take_turn(&offer, way, &mut *connection, &mut left, &mut spoken);
        if !left.is_empty() {
            return None;
        }
        if !goes_on(&turned) {
            return None;
        }
        note.speak(&spoken, now);
        if spoken.has_gone {
            gathered.begin();
        }
        let went = spoken.went;
        if connection.is_done() {
            stream.shut(Shutdown::Write);
            note.part(now);
        }
        let flow = Flow {
            gathered,
            came,
            went,
        };
        let next = InTurn {
            stream,
            offer,
            connection,
            flow,
            note,
        };
        Some(next.end())
    }

    /// The connection behind its turn: all that was heard is answered.
    pub fn end(self) -> HttpConnection
        requires lives { ∥ Lives self.offer.value (way_of self.stream) self.flow []
            self.connection.value ∥₁ }
        requires all { IsSome self.note.parting → ∥ IsDone (history self.connection.value) ∥₁ }
        ensures { past_of result ≡ past_in_turn self }
    {
        let InTurn {
            stream,
            offer,
            connection,
            flow,
            note,
        } = self;
        HttpConnection {
            stream,
            offer,
            connection,
            flow,
            note,
        }
    }
}

/// The way by which the peer of a stream comes.
fn way_of(stream: &Stream) -> Way
    ensures { result ≡ way_of stream.now }
{
    match stream {
        Stream::Unix(_) => Way::Socket,
        Stream::Tcp(_) => Way::Port,
    }
}

/// Whether a connection goes on behind a turn: it was broken off by no fault.
fn goes_on(turned: &io::Result<usize>) -> bool {
    match turned {
        Ok(_) => true,
        Err(fault) => fault.kind() == ErrorKind::WouldBlock,
    }
}
