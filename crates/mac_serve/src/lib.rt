//! Serving connections over any devices: requests are read in one thread and replies sent from
//! another, and the workers of a pool answer between them. [`serve`] serves one; [`serve_all`]
//! starts the workers, serves many at once, and ends the workers.
#![tactic(auto)]

mod caller;
mod connection;
mod fault;
mod inbound;
mod incoming;
pub mod laws;
mod outbound;
mod outstanding;
mod signals;
mod whole;

pub use caller::{Caller, ServeReport};
pub use connection::{Served, serve};
pub use fault::{ServeFault, WholeFault};
pub use whole::serve_all;
