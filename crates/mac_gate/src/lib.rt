//! The server of sockets over HTTP: where gateways, programs, operators and the page's browser
//! connect, and loops that answer them.
//!
//! [`read_addresses`] reads what people write, [`open_door`] opens a door there, and
//! [`start_server`] starts the thread that accepts, and a loop for each [`Content`]. A loop is a
//! thread that waits for many connections: each that is ready takes a turn of `mac_http`, over its
//! stream, which never waits. An [`HttpServer`] is told to end, and waited for.
#![tactic(auto)]

mod accepting;
mod address;
mod answering;
mod connection;
mod content;
mod daemon;
mod devices;
mod door;
mod draws;
mod flow;
mod gathering;
mod key_lines;
mod key_uses;
pub mod laws;
mod limit;
mod load;
mod looping;
mod note;
mod noting;
mod numbers;
mod offer;
mod pace;
mod server;
mod shared;
mod terms;
mod turning;
mod turns;
mod waiting;
mod weight;

pub use address::{Address, AddressFault, ListFault, Reach, read_address, read_addresses};
pub use content::Content;
pub use door::{DoorFault, open_door, open_port};
pub use server::{HttpServer, ServerFault, start_server};
pub use terms::{Bounds, HttpTerms};
