//! SHA-256 (FIPS 180-4) of eight messages side by side, a lane for each message.
//!
//! Nothing here asks for memory, and everything answers.
#![tactic(auto)]

mod begun;
mod block;
mod constants;
mod digests;
mod padding;
mod state;
mod word;

pub use begun::{begin, nested_digest_from, nested_digest_from_each};
pub use digests::{nested_digest_each, paired_digest_each};
pub use padding::BLOCK;
