//! A connection that is answered by the thread that reads it: *plain*. Many stand in one loop, and
//! in each [`Round`] what has come on all of them is read, answered together, and written.
//!
//! A [`Client`] is a connection over a [`Port`], a device that never waits. What it takes along
//! when it is answered elsewhere is its `Session`.
#![tactic(auto)]

mod answering;
mod asking;
mod client;
mod course;
mod dear;
pub mod laws;
mod port;
mod receiving;
mod request;
mod round;
mod sharing;
mod tally;

pub use client::{Client, UNSENT_MAX};
pub use course::{Course, Ended, Fall};
pub use port::{Came, Port, Went};
pub use round::{PIECE, ROUND_MAX, Round, RoundTerms};

/// Want of memory.
pub type NoMemory = std::alloc::AllocError;
