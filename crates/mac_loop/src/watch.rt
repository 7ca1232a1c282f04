//! What loops ask of the daemon around them.

ghost use Rattle.std.specs.Prelude.{◌≡◌, ◌++◌, ◌∷◌, [], IfSome, None, map, option_to_list};
ghost use Rattle.mac_loop.specs.Alive.{EndsWell};
ghost use Rattle.mac_loop.specs.Badges.{IsSameBadge};

use crate::ended::EndedLife;
use crate::port::SocketPort;
use mac_count::{AnsweredRequest, REQUESTS};
use mac_host::{Badge, Exchange, HEAVY, Life, Socket, Traffic};
use mac_plain::{Client, Course, Ended, Fall};
use mac_queue::History;
use std::alloc::AllocError;
use std::sync::Wait;
use std::time::Clock;
use thiserror::Error;

/// How a client ended that is served no more.
#[derive(Clone, Copy, Debug, PartialEq, Eq, Error)]
pub enum PlainFault {
    /// The stream ended within a frame.
    #[error("the stream ended inside a frame")]
    Torn,
    /// A read failed.
    #[error("the source failed")]
    Read,
    /// A write failed.
    #[error("the sink failed")]
    Write,
    /// Memory ran out.
    #[error("memory was refused")]
    NoMemory,
    /// There is no further place for a reply.
    #[error("no further reply has a place")]
    Exhausted,
    /// It made no progress for as long as it may.
    #[error("it made no progress")]
    Idle,
    /// There were as many as there may be, and a further one came.
    #[error("another connection came in its place")]
    GaveWay,
    /// It held more than others of the memory that all have together, and there was no more.
    #[error("{}", HEAVY)]
    Heavy,
}

impl PlainFault {
    /// The fault that a client ended in, on which nothing more is to be done.
    pub fn of(client: &Client<SocketPort>) -> Option<PlainFault>
        ensures well { result ≡ None → EndsWell client.now }
        ensures only { EndsWell client.now → result ≡ None }
    {
        match client.course() {
            Course::Open | Course::Held | Course::Wide | Course::Awaiting(_) => {
                Some(PlainFault::Write)
            }
            Course::TooLong if client.unsent() > 0 => Some(PlainFault::Write),
            Course::TooLong => None,
            Course::Ended(Ended::Fault) => Some(PlainFault::Read),
            Course::Ended(Ended::Peer) if client.unsent() > 0 => Some(PlainFault::Write),
            Course::Ended(Ended::Peer) if client.has_begun() => Some(PlainFault::Torn),
            Course::Ended(Ended::Peer) => None,
            Course::Fallen(Fall::NoMemory) => Some(PlainFault::NoMemory),
            Course::Fallen(Fall::Exhausted) => Some(PlainFault::Exhausted),
        }
    }
}

/// What a turn of a loop came to.
#[derive(Clone, Copy)]
pub struct Turn {
    /// How many requests were answered, each kind at its place, but for those that workers
    /// answered.
    pub requests: [u64; REQUESTS],
    /// What came from its clients, and went to them.
    pub traffic: Traffic,
}

/// Who is told what becomes of the clients of loops.
pub trait Watch: Send + Sync {
    /// A client has ended, well or in a fault. That this was told is noted.
    fn end<R: Wait + Clock>(&self, rt: &R, ended: EndedLife, told: &mut History<Life>)
        ensures { told.new ≡ told.old ++ ended.life ∷ [] };

    /// A turn has ended, which took so many microseconds from when its loop had waited.
    fn count(&self, turn: &Turn, micros: u64);

    /// A client of this badge was sent the reply to a request, and that is logged; or there was no
    /// memory to note one.
    fn tell<R: Wait + Clock>(&self, rt: &R, badge: Badge, exchange: Result<Exchange, AllocError>);

    /// A client that stays has had a turn, and so many bytes are unsent.
    fn see(&self, life: Life, unsent: usize);

    /// A client asks for what a loop must not answer, and waits for a worker.
    fn widen(&self, life: Life);

    /// The socket of which a client is to give way to one that comes in at this one, where there is
    /// no room for that.
    fn gives_way<R: Wait>(&self, rt: &R, comes: Socket) -> Option<Socket>;

    /// A client comes in the place of one that has ended so, or of nobody. What it is known by,
    /// where there is room for it. That the other one's end was told is noted.
    fn displace<R: Wait + Clock>(
        &self,
        rt: &R,
        gone: Option<EndedLife>,
        comes: Badge,
        told: &mut History<Life>,
    ) -> Option<Badge>
        ensures told { told.new ≡ told.old ++ map (λ ended. ended.life) (option_to_list gone) }
        ensures badge { IfSome result (λ badge. IsSameBadge comes badge) };

    /// A client waits for a worker no more, for which it did so many microseconds. What it has had
    /// answered then, if anything.
    fn narrow(&self, life: Life, answered: Option<AnsweredRequest>, micros: u64);
}
