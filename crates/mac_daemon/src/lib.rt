//! The daemon: the connections of a Unix socket, from the first byte of each to its last.
//!
//! One thread accepts them ([`listen`]) and hands each to a loop of `mac_loop`, which answers what
//! it reads. What is too dear for that the loop puts into the workers' line from a desk of its own,
//! and the connection waits in its slot for the answer. A daemon that ends by itself tells its
//! [`Day`]: whom it admitted, and who of them has gone.
#![tactic(auto)]

mod accepting;
mod arrivals;
mod day;
mod descriptors;
mod door;
mod ended_loops;
mod fault;
mod listening;
mod notice;
mod room;
mod running;
mod shared;
mod stop;
mod surroundings;
mod unstarted;

pub use day::Day;
pub use door::{Gift, SideSocket, give};
pub use fault::DaemonFault;
pub use listening::{Daemon, DaemonTerms, listen};
pub use running::{FOLLOWERS_MAX, Shape};
pub use surroundings::Surroundings;
