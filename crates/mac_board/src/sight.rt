//! What looks at a file find.

ghost use Rattle.std.specs.Prelude.{◌≡◌, ◌↔◌, IsTrue};
ghost use Rattle.mac_board.specs.Sight.{state_after, state_before};

use crate::access::Exposure;
use std::alloc::Global;

/// A time of a file: seconds since 1970, and the nanoseconds behind them.
#[derive(Clone, Copy, Debug)]
pub struct Stamp {
    /// The whole seconds.
    pub seconds: i64,
    /// The nanoseconds behind them.
    pub nanoseconds: i64,
}

/// What tells one text of a file from another, without reading it.
#[derive(Clone, Copy, Debug)]
pub struct Mark {
    /// The device that the file is on.
    pub device: u64,
    /// The file's number there.
    pub inode: u64,
    /// The number of its bytes.
    pub size: u64,
    /// When its bytes were written last.
    pub modified: Stamp,
    /// When its bytes, its name or its owner changed last.
    pub changed: Stamp,
}

/// How a file is found.
#[derive(Clone, Copy, Debug)]
pub enum FileState {
    /// There is none.
    Missing,
    /// The system doesn't tell, or what is there is no plain file.
    Unknown,
    /// It has this mark.
    Marked(Mark),
}

/// Why a file that is there has no text.
#[derive(Clone, Copy, Debug)]
pub enum ReadFault {
    /// It can't be read.
    Unreadable,
    /// It is longer than what is read.
    TooLong,
    /// Others than its reader may use it.
    Exposed(Exposure),
}

/// What one look at a file found.
#[derive(Drop)]
pub enum Sight {
    /// The file was found in this state, and not read.
    Glance(FileState),
    /// The file was read, and found in a state before and after.
    Read {
        /// Its state before.
        before: FileState,
        /// Its text.
        text: Result<Vec<u8>, ReadFault>,
        /// Its state after.
        after: FileState,
    },
}

impl Sight {
    /// The state of the file as the look began.
    pub(crate) fn before(&self) -> FileState
        ensures { result ≡ state_before self.now }
    {
        match self {
            Sight::Glance(state) => *state,
            Sight::Read { before, .. } => *before,
        }
    }

    /// The state of the file as the look ended.
    pub(crate) fn after(&self) -> FileState
        ensures { result ≡ state_after self.now }
    {
        match self {
            Sight::Glance(state) => *state,
            Sight::Read { after, .. } => *after,
        }
    }
}

/// Whether two states are one.
pub(crate) fn is_same(one: FileState, other: FileState) -> bool
    ensures { IsTrue result ↔ (one ≡ other) }
{
    match (one, other) {
        (FileState::Missing, FileState::Missing) => true,
        (FileState::Unknown, FileState::Unknown) => true,
        (FileState::Marked(one), FileState::Marked(other)) => is_same_mark(one, other),
        _ => false,
    }
}

fn is_same_mark(one: Mark, other: Mark) -> bool
    ensures { IsTrue result ↔ (one ≡ other) }
{
    one.device == other.device
        && one.inode == other.inode
        && one.size == other.size
        && is_same_time(one.modified, other.modified)
        && is_same_time(one.changed, other.changed)
}

fn is_same_time(one: Stamp, other: Stamp) -> bool
    ensures { IsTrue result ↔ (one ≡ other) }
{
    one.seconds == other.seconds && one.nanoseconds == other.nanoseconds
}
