//! A pool of a service: up to 16 workers in threads of their own claim tickets from one queue, and
//! up to 64 desks put them there and take the answers, without a lock. A worker works on several
//! tickets at a time, and posts the answers to their mailboxes, for as long as the queue is open.
#![tactic(auto)]

mod fault;
pub mod laws;
mod passes;
mod pool;
mod posting;
mod work;

pub use fault::{DeskFault, PoolFault};
pub use mac_queue::{
    Claim, Desk, Mailbox, Post, PutFault, Putter, Queue, QueuePass, Taker, Tally, Ticket,
};
pub use pool::{DESKS_MAX, Finished, Pool, WORKERS_MAX};
pub use work::{TURN_MAX, Worked, worker};
