//! What a daemon says on standard error: lines of plain words, a line for each thing that
//! happened.
//!
//! Who posts a line never waits for who reads it: one thread prints what waits in a bounded queue.
//! Of each kind but that of requests at most ten lines a second are printed, and then one that says
//! how many were left out. Lines of requests leave a quarter of the queue to the others. No value
//! can end a line or pass for a key of it ([`laws`]), and no token stands where a name is told. A
//! line has at most `LINE_MAX` bytes: what is longer is cut, and ends in ` ...`.
#![tactic(auto)]

mod books;
mod clock;
mod fields;
mod id;
mod key;
mod kind;
pub mod laws;
mod level;
mod line;
mod log;
mod moment;
mod name;
mod printer;
mod quota;
mod taken;
mod value;

pub use fields::{FIELDS_MAX, FIELDS_ROOM, Fields};
pub use id::{ID_MAX, is_told_id};
pub use key::Key;
pub use kind::{KINDS, Kind};
pub use level::Level;
pub use line::{LINE_MAX, Line};
pub use log::{Fate, Log, REQUESTS_WAITING_MAX, WAITING_MAX};
pub use moment::MOMENT_MAX;
pub use name::{TOKEN_MIN, is_told_name};
pub use printer::start_log;
pub use quota::{LINES_MAX, Quota, SECOND};
pub use std::alloc::AllocError as NoMemory;
