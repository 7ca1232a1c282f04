//! Why a buffer refuses a job or an answer, and an intake a job.

use thiserror::Error;

/// Why a reorder buffer did not open a job.
#[derive(Clone, Copy, Debug, PartialEq, Eq, Error)]
pub enum OpenFault {
    /// As many places are unsent as the buffer has slots.
    #[error("128 places of the reorder buffer are unsent")]
    Full,
    /// The buffer is closed.
    #[error("the reorder buffer is closed")]
    Closed,
    /// The place would be the greatest that a number can name, which is never given.
    #[error("the reorder buffer has no place left to give")]
    Last,
}

/// Why a reorder buffer did not take an answer.
#[derive(Clone, Copy, Debug, PartialEq, Eq, Error)]
pub enum SettleFault {
    /// The place is below the next one to send.
    #[error("the place of the answer was sent already")]
    Old,
    /// The place is beyond the buffer's slots.
    #[error("the place of the answer is 128 or more above the next one to send")]
    TooFar,
    /// The place has an answer that waits.
    #[error("the place of the answer has one already")]
    Twice,
    /// The buffer is closed.
    #[error("the reorder buffer is closed")]
    Closed,
}

/// Why an intake did not admit a job.
#[derive(Clone, Copy, Debug, PartialEq, Eq, Error)]
pub enum AdmitFault {
    /// No slip of the ring is free.
    #[error("all 64 slips of the ring hold a job")]
    Full,
    /// The place would be the greatest that a number can name, which is never given.
    #[error("the ring has no place left to give")]
    Last,
}
