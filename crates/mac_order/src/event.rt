//! The events of the world that the laws speak of, and what comes of each. `specs/Step.antt`
//! defines what each does.

use crate::service::Service;

/// What may happen next in the world. Connections and workers go by their numbers, from 0 on.
#[derive(Drop)]
pub enum Event<S: Service> {
    /// This job arrives on this connection.
    Arrive(u32, S::Job),
    /// This worker claims, on this connection, this place.
    Claim(u32, u32, u64),
    /// This worker finishes the place that it has claimed.
    Finish(u32),
    /// This connection sends its next reply.
    Send(u32),
    /// This connection is closed.
    Close(u32),
}

/// What an event came to.
#[derive(Clone, Copy)]
pub enum Outcome {
    /// The job that arrived has this place.
    Admitted(u64),
    /// The worker has claimed the place.
    Claimed,
    /// The worker's place is finished.
    Finished,
    /// The worker's claim has ended, and nothing is kept, since the connection is closed.
    Discarded,
    /// The reply of this place was sent.
    Sent(u64),
    /// The connection is closed from now on.
    Closed,
    /// The connection was closed before.
    Ended,
    /// As many places are unsent as a reorder buffer has slots.
    Full,
    /// The worker has a claim already.
    Busy,
    /// The place has not arrived, or was claimed before.
    Taken,
    /// The worker has no claim.
    Idle,
    /// The next place is not finished.
    Waiting,
    /// There is no such connection or worker.
    Nowhere,
}

/// What a worker has claimed: a place of a connection.
#[derive(Clone, Copy)]
pub struct Assignment {
    /// The connection's number.
    pub connection: u32,
    /// The place on it.
    pub place: u64,
}
