//! Loops: threads that wait for many connections at once, answer what these bring, and write to
//! each.
//!
//! A [`Loop`] has its share of the clients. In a turn it waits, reads each client that is ready
//! once, answers all their requests together, and writes to each; which bytes that are is
//! `mac_plain`'s. Clients come by a loop's inbox among the [`Loops`], from whoever accepts them and
//! from other loops: few clients share a loop for as long as it keeps up.
//!
//! A loop's clients are in its roll, and none leaves that without an outcome: it is handed on, its
//! end is told, or it is turned away. An [`EndedLoop`] says so of all that the loop was given.
//!
//! Which connections a daemon admitted, and which have gone, its threads note in a [`Register`],
//! each in its own part of it. What a loop has of a connection has a [`Presence`], which only an
//! admission makes.
//!
//! A client's value carries its life: a [`Handover`], what the slots and the turns of a loop hold,
//! and the [`EndedLife`] that a [`Watch`] is told each have a fact on what came and went so far.
#![tactic(auto)]

mod asks;
mod backlog;
mod batch;
mod ended;
mod handover;
mod inbox;
pub mod laws;
mod ledger;
mod lent;
mod looping;
mod members;
mod meter;
mod outcomes;
mod port;
mod register;
mod resting;
mod roll;
mod socket_queues;
mod transcript;
mod watch;

pub use ended::EndedLife;
pub use handover::Handover;
pub use inbox::{Enqueued, Loops};
pub use ledger::{Ledger, LedgerBook};
pub use looping::{Loop, LoopParts, LoopTerms, make_loops};
pub use outcomes::{EndedLoop, Outcomes};
pub use port::SocketPort;
pub use register::{Admitted, Origin, Presence, Register, Settled};
pub use transcript::Transcript;
pub use watch::{PlainFault, Turn, Watch};
