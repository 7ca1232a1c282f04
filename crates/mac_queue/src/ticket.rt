//! What stands in the queue.

use crate::mailbox::Mailbox;
use mac_order::Service;
use std::alloc::Global;
use std::sync::Arc;

/// A job at its place, with the mailbox for its answer.
#[derive(Drop)]
pub struct Ticket<S: Service> {
    /// The job's place on its connection.
    pub place: u64,
    /// What is to be worked on.
    pub job: S::Job,
    /// Where the answer goes.
    pub mail: Arc<Mailbox<S>, Global>,
}
