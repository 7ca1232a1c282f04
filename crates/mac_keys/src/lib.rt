//! The key table: the root keys of the names that requests give.
//!
//! A key file is text, a line for each secret of a name, which has one or two. [`KeyTable::read`]
//! takes it whole and keeps of each secret the root key that is derived from it;
//! [`KeyTable::find`] looks a name up. [`laws`] says in other words what a file means.
//!
//! Beside its names a table has a [`RevokedList`], of tokens that were taken back. That is a text
//! of its own, which [`RevokedList::read`] takes; [`KeyTable::take_back`] puts it into a table.
#![tactic(auto)]

mod change;
mod fault;
mod filter;
mod key_map;
mod key_table;
mod keys;
pub mod laws;
mod line;
mod revoked;
mod revoked_fault;
mod weak;
mod wiping;

pub use change::{ChangeFault, add_above, add_below, drop_lower, drop_upper, raise_lower};
pub use fault::{KeyFault, LineFault};
pub use filter::hash_identifier;
pub use key_map::{KeyMap, NAMES_MAX};
pub use key_table::KeyTable;
pub use keys::{KeyName, Keys};
pub use line::{NAME_MAX, is_name};
pub use revoked::{RevokedList, count_lines, says_none};
pub use revoked_fault::{RevokedFault, RevokedLineFault};
pub use weak::{SOUND_BYTES, find_weak};
pub use wiping::wipe;
