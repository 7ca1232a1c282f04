//! What all servers of one daemon share, whatever they serve: how far the daemon is, what is
//! counted and logged, its list of connections, and its memory of tokens.
//!
//! The server of the daemon's own socket makes these. A further one, as one over HTTP, has them by
//! a [`Host`]: the daemon's end waits for the connections that it counts there.
#![tactic(auto)]

mod badge;
mod clock;
mod ending;
mod exchange;
mod host;
mod limits;
mod minted;
mod notices;
mod numbers;
mod requested;
mod roster;
mod standing;
mod traffic;

pub use badge::{Badge, Life, Socket};
pub use clock::{microseconds, microseconds_of};
pub use ending::DaemonEnd;
pub use exchange::{
    Exchange, Logged, LoggedReason, copy_identifier_of, copy_told_id, copy_told_identifier,
    copy_told_name,
};
pub use host::Host;
pub use limits::{DISPLACING_MAX, DROPPED_MICROS, DROPPED_READS, REFUSED_MILLIS};
pub use notices::{Beginning, HEAVY, Notices};
pub use numbers::Numbers;
pub use roster::Roster;
pub use standing::Instruction;
pub use traffic::Traffic;
