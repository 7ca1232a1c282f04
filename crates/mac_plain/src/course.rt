//! How a connection goes on.

use mac_decide::Basis;

/// How a connection goes on.
#[derive(Clone, Copy, PartialEq, Eq)]
pub enum Course {
    /// It is read and answered.
    Open,
    /// Whole requests may be carried. They are answered before more is read.
    Held,
    /// In front of what is carried stands what a loop must not answer: a worker is to be asked.
    Wide,
    /// A worker was asked. What stands in front of what is carried is answered on this basis.
    Awaiting(Basis),
    /// A frame was too long, and is refused: nothing behind it is a request. What is unsent is
    /// still to be written.
    TooLong,
    /// Nothing more comes. What is unsent is still to be written.
    Ended(Ended),
    /// Some of what was read is lost, and has no reply. What is unsent is still to be written.
    Fallen(Fall),
}

/// Why nothing more comes.
#[derive(Clone, Copy, PartialEq, Eq)]
pub enum Ended {
    /// The peer sends no more.
    Peer,
    /// A read failed.
    Fault,
}

/// Why a request has no reply.
#[derive(Clone, Copy, PartialEq, Eq)]
pub enum Fall {
    /// Memory was refused.
    NoMemory,
    /// There is no further place for a reply.
    Exhausted,
}
