//! The sockets of a server: where it listens, the paths that it listens at, and the streams of
//! those who connect there.
//!
//! [`Holdings`] make sockets at paths that nobody else has. Each that listens is a [`Door`], and an
//! [`Entrance`] waits at all of them, until its [`Shutter`] shuts it. What comes in is a
//! [`Stream`], over a Unix socket or over TCP, which goes to a thread by that one's [`Inbox`]. That
//! thread has its [`Connections`] in slots, waits for what a poll tells of them, and takes turns
//! over those that are ready. The loops have the memory of their connections of one
//! [`SharedBudget`], by an [`BudgetAccount`] each. Nothing here knows what is said on a stream.
#![tactic(auto)]

mod account;
mod budget;
mod connections;
mod door;
mod doors;
mod entrance;
mod fault;
mod heavy;
mod holding;
mod inbox;
mod lock;
mod place;
mod stacks;
mod stream;

pub use account::{BudgetAccount, SharedBudget};
pub use budget::Budget;
pub use connections::{Connections, REST_MIN, Readiness, Wakes};
pub use door::Door;
pub use doors::Doors;
pub use entrance::{Accepted, Arrived, Entrance, Shutter};
pub use fault::WaitFault;
pub use heavy::{Heavy, Holds, heaviest};
pub use holding::{Holdings, PathsLook};
pub use inbox::Inbox;
pub use lock::PathClaim;
pub use place::{PlaceFault, bind_new};
pub use stacks::{STACK, has_roomy_stacks};
pub use stream::{Fresh, Stream};
