//! The queue between connections and workers, without a lock: the queue of jobs, into which each
//! connection puts from a desk of its own, and the mailboxes in which answers wait for who takes
//! them. Who finds nothing in either sleeps on a bell.
#![tactic(auto)]

mod bell;
mod closing;
mod desk;
mod fault;
mod history;
pub mod laws;
mod mailbox;
mod post;
mod queue;
mod receipt;
mod taker;
mod ticket;

pub use bell::{AnnouncedWait, Bell};
pub use closing::{Closed, Closing, Open};
pub use desk::{Desk, Putter};
pub use fault::PutFault;
pub use history::History;
pub use mailbox::{MAIL_MAX, Mailbox};
pub use post::Post;
pub use queue::{Claim, PASSES, PUTS_MAX, QUEUE_MAX, Queue, QueuePass, Tally};
pub use receipt::{Delivery, Receipt};
pub use taker::Taker;
pub use ticket::Ticket;
