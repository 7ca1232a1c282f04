//! A board whose tables are those of a key file, with a list of tokens that were taken back.

ghost use Rattle.std.specs.Prelude.{◌≡◌, None, Some};
ghost use Rattle.std.specs.List.{last_or};
ghost use Rattle.mac_board.specs.Publisher.{tables};

mod steps;

use crate::listing::ListRefusal;
use crate::publisher::Publisher;
use crate::watcher::{KeyFileRefusal, Watcher};
use mac_keys::{KeyMap, RevokedList};
use std::sync::Wait;

/// What is to be told of a look at a key file.
#[derive(Clone, Copy, Debug)]
pub enum News {
    /// There is nothing to be told.
    Nothing,
    /// A table with so many names was put up.
    Taken(usize),
    /// The file isn't taken, and the table before stays up.
    Refused(KeyFileRefusal),
}

/// What is to be told of a look at a list of tokens that were taken back.
#[derive(Clone, Copy, Debug)]
pub enum ListNews {
    /// There is nothing to be told.
    Nothing,
    /// A list of so many lines was put up.
    Taken(usize),
    /// The file isn't taken, and the list before stays up.
    Refused(ListRefusal),
}

/// What is known of the two files: of each how it was found, and in which state it was dealt with.
#[derive(Clone, Copy)]
pub struct Watchers {
    /// The key file.
    pub keys: Watcher,
    /// The list of tokens that were taken back.
    pub list: Watcher,
}

/// Puts the tables of a key file up, each with the list of tokens that were taken back. It reads
/// nothing itself, and is told what each look at either file found.
#[derive(Drop)]
pub struct Editor<R: Wait + Drop> {
    publisher: Publisher<R>,
    watchers: Watchers,
    // What is up: the names with their keys, and what was taken back.
    keys: KeyMap,
    revoked: RevokedList,
    ghost up: { last_or None (tables publisher)
        ≡ Some (record { keys = keys; revoked = revoked }) },
}
