//! Why a queue or a mailbox refuses.

use crate::closing::{Closed, Open};
use thiserror::Error;

/// Why a ticket or a post was not put.
#[derive(Debug, Drop, Error)]
pub enum PutFault {
    /// The queue or the mailbox holds as many as it can, and was found open: there is room later.
    #[error("the queue is full")]
    Full(Open),
    /// The queue or the mailbox is closed, as this shows.
    #[error("the queue is closed")]
    Closed(Closed),
    /// There was no further handle on the mailbox.
    #[error("memory ran out for a handle on the mailbox")]
    NoMemory,
    /// The pass has put as many as it ever may.
    #[error("the pass has put as many tickets as it may")]
    Spent,
}
