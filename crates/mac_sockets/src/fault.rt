//! Why nothing can wait for connections.

use std::alloc::{AllocError, AllocFailed};
use std::io;
use thiserror::Error;

/// Why nothing can wait for connections.
#[derive(Debug, Drop, Error)]
pub enum WaitFault {
    /// Memory ran out.
    #[error("memory ran out")]
    NoMemory,
    /// The system refused what the wait is made by.
    #[error("{0}")]
    System(io::Error),
}

impl From<AllocError> for WaitFault {
    fn from(_refused: AllocError) -> WaitFault {
        WaitFault::NoMemory
    }
}

impl<T: Drop> From<AllocFailed<T>> for WaitFault {
    fn from(_refused: AllocFailed<T>) -> WaitFault {
        WaitFault::NoMemory
    }
}

impl From<io::Error> for WaitFault {
    fn from(refused: io::Error) -> WaitFault {
        WaitFault::System(refused)
    }
}
