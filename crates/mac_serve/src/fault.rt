//! Why serving a connection failed.

ghost use Rattle.std.specs.Prelude.{◌≡◌};
ghost use Rattle.mac_serve.specs.Serving.{serve_code};

use thiserror::Error;

/// Why a connection was not served to a whole end.
#[derive(Clone, Copy, Debug, PartialEq, Eq, Error)]
pub enum ServeFault {
    /// The source failed.
    #[error("the source failed")]
    Read,
    /// The sink failed.
    #[error("the sink failed")]
    Write,
    /// Memory was refused, here or to a worker, or a thread was.
    #[error("memory or a thread was refused")]
    NoMemory,
    /// The stream ended inside a frame.
    #[error("the stream ended inside a frame")]
    Torn,
    /// An answer came that was not due.
    #[error("an answer came that was not due")]
    Stranger,
    /// There is no further place in the ring, the queue is closed, or a count is used up.
    #[error("the ring or the queue took no more")]
    Exhausted,
}

impl ServeFault {
    /// The fault's number: 1 to 6.
    pub fn code(&self) -> u8
        ensures { result ≡ serve_code self.now }
    {
        match self {
            ServeFault::Read => 1,
            ServeFault::Write => 2,
            ServeFault::NoMemory => 3,
            ServeFault::Torn => 4,
            ServeFault::Stranger => 5,
            ServeFault::Exhausted => 6,
        }
    }
}

/// Why nobody was served.
#[derive(Clone, Copy, Debug, PartialEq, Eq, Error)]
pub enum WholeFault {
    /// There are to be 1 to 16 workers.
    #[error("a pool has 1 to 16 workers")]
    Count,
    /// There are to be 64 connections at most.
    #[error("a pool has 64 desks at most")]
    Crowd,
    /// The system gave no thread for a worker.
    #[error("the system gave no thread for a worker")]
    NoThread,
    /// Memory ran out.
    #[error("memory ran out for the pool or a desk")]
    NoMemory,
}
