//! What a worker posts.

use mac_order::{Answer, Service};

/// What a worker posts to a mailbox. That an answer's reply is the definition's for its job is
/// kept by the answer's type.
#[derive(Drop)]
pub enum Post<S: Service> {
    /// The answer at this place.
    Answered(u64, Answer<S>),
    /// Memory ran out for the answer at this place.
    Failed(u64),
}
