//! When a list of tokens that were taken back is taken, and why it isn't.

ghost use Rattle.std.specs.Prelude.{◌≡◌, IfOk};
ghost use Rattle.mac_board.specs.Listing.{judged_list, list_worth, may_empty};
ghost use Rattle.mac_keys.specs.Revoked.{revoked_of};

use crate::access::Exposure;
use crate::sight::{FileState, ReadFault, Sight};
use mac_keys::{RevokedFault, RevokedLineFault, RevokedList, count_lines, says_none};
use std::alloc::{AllocError, Global};
use thiserror::Error;

/// Why a list isn't taken.
#[derive(Clone, Copy, Debug, PartialEq, Eq, Error)]
pub enum ListRefusal {
    /// There is none.
    #[error("there is no list of tokens that were taken back")]
    Missing,
    /// It can't be read.
    #[error("the list can't be read")]
    Unreadable,
    /// It is longer than what is read.
    #[error("the list is longer than one may be")]
    TooLong,
    /// Others than its reader may use it.
    #[error("{0}")]
    Exposed(Exposure),
    /// A line has a fault, and no earlier line has any.
    #[error("line {line}: {kind}")]
    Faulty {
        /// The line, counted from 1.
        line: u64,
        /// What is wrong with it.
        kind: RevokedLineFault,
    },
    /// It takes nothing back, where the one that is up does, and doesn't say that this is meant.
    #[error("the list has lost all its lines; where that is meant, a line `# none` says so")]
    Emptied,
}

/// What comes of a look at a list.
#[derive(Drop)]
pub enum ListFinding {
    /// There is nothing to be done.
    Nothing,
    /// This list is to be put up.
    List(RevokedList),
    /// It isn't taken, which is to be told.
    Refused(ListRefusal),
}

/// The list that is up, as a further one is judged beside it.
#[derive(Clone, Copy)]
pub struct ListUp {
    /// How many lines it has.
    pub lines: usize,
    /// Whether one without lines is taken in its place.
    pub may_empty: bool,
}

/// What comes of a look that has to be dealt with.
pub(crate) fn list_value(
    alloc: Global,
    up: ListUp,
    sight: &Sight,
) -> Result<ListFinding, AllocError>
    ensures { IfOk result (λ found. found ≡ list_worth up sight.now) }
{
    match sight {
        Sight::Glance(FileState::Missing) => Ok(ListFinding::Refused(ListRefusal::Missing)),
        Sight::Glance(FileState::Unknown) => Ok(ListFinding::Refused(ListRefusal::Unreadable)),
        Sight::Glance(FileState::Marked(_)) => Ok(ListFinding::Nothing),
        Sight::Read {
            text: Err(ReadFault::Unreadable),
            ..
        } => Ok(ListFinding::Refused(ListRefusal::Unreadable)),
        Sight::Read {
            text: Err(ReadFault::TooLong),
            ..
        } => Ok(ListFinding::Refused(ListRefusal::TooLong)),
        Sight::Read {
            text: Err(ReadFault::Exposed(why)),
            ..
        } => Ok(ListFinding::Refused(ListRefusal::Exposed(*why))),
        Sight::Read { text: Ok(text), .. } => judge_list(alloc, up, text.as_slice()),
    }
}

/// The list of a text, or why it isn't taken.
pub fn judge_list(alloc: Global, up: ListUp, text: &[u8]) -> Result<ListFinding, AllocError>
    ensures { IfOk result (λ found.
        found ≡ judged_list up text.now (revoked_of text.now)) }
{
    match RevokedList::read(alloc, text) {
        Ok(_) if count_lines(text) == 0 && !may_empty(up, text) => {
            Ok(ListFinding::Refused(ListRefusal::Emptied))
        }
        Ok(list) => Ok(ListFinding::List(list)),
        Err(RevokedFault::Line { line, kind }) => {
            Ok(ListFinding::Refused(ListRefusal::Faulty { line, kind }))
        }
        Err(RevokedFault::Memory) => Err(AllocError),
    }
}

/// Whether a text that says nothing is taken in place of the list that is up.
fn may_empty(up: ListUp, text: &[u8]) -> bool
    ensures { result ≡ may_empty up text.now }
{
    up.lines == 0 || up.may_empty || says_none(text)
}
