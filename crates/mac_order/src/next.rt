//! What a buffer has to send.

use crate::service::Service;

/// What a reorder buffer has to send.
#[derive(Drop)]
pub enum Next<S: Service> {
    /// The reply to the job at this place.
    Reply(u64, S::Reply),
    /// The answer at this place is to another job than was opened there. The buffer is closed.
    Stranger(u64),
    /// The buffer is closed.
    Closed,
    /// The next place is not open yet, or has no answer yet.
    Waiting,
}
