//! Why a connection of the daemon's own socket ended that might have gone on.

use mac_log::Kind;
use mac_loop::PlainFault;
use thiserror::Error;

/// Why a connection ended that might have gone on.
#[derive(Clone, Copy, Debug, Error)]
pub enum Notice {
    /// It ended in a fault while a loop answered it.
    #[error("{0}")]
    Plain(PlainFault),
    /// The system failed as it went from one thread to another.
    #[error("the system failed")]
    System,
    /// There was no memory for it.
    #[error("memory ran out")]
    NoMemory,
}

impl Notice {
    /// Whether it is a fault, and no rest that was too long.
    pub fn is_fault(self) -> bool {
        self.kind() != Kind::ConnectionIdle
    }

    /// Whether it was ended since it held most of the memory of all.
    pub fn is_heavy(self) -> bool {
        matches!(self, Notice::Plain(PlainFault::Heavy))
    }

    /// The kind of the line that tells it.
    pub fn kind(self) -> Kind {
        match self {
            Notice::Plain(PlainFault::Idle) => Kind::ConnectionIdle,
            Notice::Plain(_) => Kind::ConnectionFault,
            Notice::System | Notice::NoMemory => Kind::ConnectionDropped,
        }
    }
}
