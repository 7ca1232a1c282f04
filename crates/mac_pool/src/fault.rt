//! Why a pool refuses.

use thiserror::Error;

/// Why a pool did not start.
#[derive(Clone, Copy, Debug, PartialEq, Eq, Error)]
pub enum PoolFault {
    /// There are to be 1 to 16 workers.
    #[error("a pool has 1 to 16 workers")]
    Count,
    /// The system gave no thread.
    #[error("the system gave no thread for a worker")]
    NoThread,
    /// Memory ran out.
    #[error("memory ran out for the pool")]
    NoMemory,
}

/// Why a pool gave no desk.
#[derive(Clone, Copy, Debug, PartialEq, Eq, Error)]
pub enum DeskFault {
    /// All 64 desks are out.
    #[error("all 64 desks of the pool are out")]
    AllOut,
    /// Memory ran out.
    #[error("memory ran out for a desk")]
    NoMemory,
}
