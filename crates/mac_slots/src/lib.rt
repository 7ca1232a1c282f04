//! The slots of a loop: its connections, each under a number of its own, and which of them are
//! ready.
//!
//! [`Slots`] keeps both together, so that a slot is listed at most once, stays listed until its
//! turn, and is in no list once its connection has left. `laws` says so of the whole.
#![tactic(auto)]

pub mod laws;
mod slots;

pub use slots::Slots;
