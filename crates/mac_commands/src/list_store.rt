//! A list of tokens that were taken back, as the system shows it.
ghost use Rattle.std.specs.Prelude.{IfOk, OnOk};
ghost use Rattle.mac_commands.specs.Doing.{IsList, IsListOf, TakesList};

use crate::looking::read_sight;
use crate::observed_file::{Held, ObservedFile};
use crate::status::Status;
use crate::telling::{tell_fault, tell_list};
use mac_board::{FileState, ListRefusal, ReadFault, Sight};
use mac_keys::{KeyTable, RevokedFault, RevokedList};
use std::alloc::{Alloc, AllocError, Global};
use std::fs::{File, Files};
use std::io::{ErrorKind, Read};

/// The greatest number of bytes in a list.
const LIST_MAX: usize = 268_435_456;

/// How many bytes a read asks for.
const PIECE: usize = 65_536;

/// A list that a daemon follows.
#[derive(Clone, Copy)]
pub struct ListPlace<'a> {
    /// Its path.
    pub path: &'a str,
    /// Whether others may use it.
    pub of_others: bool,
    /// Whether one that has lost all its lines is taken.
    pub may_empty: bool,
}

/// What a list gave first.
#[derive(Drop)]
pub struct FirstList {
    /// What it takes back.
    pub list: RevokedList,
    /// The state of the file before it was read.
    pub before: FileState,
    /// Its state after.
    pub after: FileState,
}

/// Gives a table the list of a place, where there is one. Else says why it isn't taken, and how the
/// run ends.
pub fn take_list<R>(
    rt: &R,
    place: Option<ListPlace<'_>>,
    table: &mut KeyTable,
) -> Result<(), Status>
where
    R: Files<File = File> + Alloc<A = Global> + Eprint,
    ensures { OnOk result (TakesList place.entry table.old table.new) }
{
    let Some(place) = place else {
        return Ok(());
    };
    let first = find_first_list(rt, place)?;
    match table.take_back(&first.list) {
        Ok(()) => Ok(()),
        Err(_) => Err(tell_fault(rt, Status::NoMemory)),
    }
}

/// The list of a place; where there is none, nothing was taken back. Else says why it isn't taken,
/// and how the run ends.
pub fn find_list<R>(rt: &R, place: Option<ListPlace<'_>>) -> Result<RevokedList, Status>
where
    R: Files<File = File> + Alloc<A = Global> + Eprint,
    ensures { IfOk result (IsListOf place.entry) }
{
    let Some(place) = place else {
        return Ok(RevokedList::none());
    };
    let first = find_first_list(rt, place)?;
    Ok(first.list)
}

/// What a list gives first. Else says why it isn't taken, and how the run ends.
pub fn find_first_list<R>(rt: &R, place: ListPlace<'_>) -> Result<FirstList, Status>
where
    R: Files<File = File> + Alloc<A = Global> + Eprint,
    ensures { IfOk result (λ first. IsList first.list) }
{
    match read_first_list(rt, place) {
        Ok(Ok(first)) => Ok(first),
        Ok(Err(why)) => Err(tell_list(rt, place.path, why)),
        Err(_) => Err(tell_fault(rt, Status::NoMemory)),
    }
}

/// Reads a list for the first time. One without lines is taken.
fn read_first_list<R>(
    rt: &R,
    place: ListPlace<'_>,
) -> Result<Result<FirstList, ListRefusal>, AllocError>
where
    R: Files<File = File> + Alloc<A = Global>,
    ensures { IfOk result (λ read. IfOk read (λ first. IsList first.list)) }
{
    let mut file = ObservedFile::new(place.path, place.of_others);
    let found = file.find(rt);
    let sight = read_sight(rt, &mut file, found, Held::List)?;
    let Sight::Read {
        before,
        text,
        after,
    } = sight
    else {
        return Ok(Err(ListRefusal::Missing));
    };
    let text = match text {
        Ok(text) => text,
        Err(ReadFault::Unreadable) => return Ok(Err(unread(found))),
        Err(ReadFault::TooLong) => return Ok(Err(ListRefusal::TooLong)),
        Err(ReadFault::Exposed(why)) => return Ok(Err(ListRefusal::Exposed(why))),
    };
    match RevokedList::read(rt.alloc(), text.as_slice()) {
        Ok(list) => Ok(Ok(FirstList {
            list,
            before,
            after,
        })),
        Err(RevokedFault::Line { line, kind }) => Ok(Err(ListRefusal::Faulty { line, kind })),
        Err(RevokedFault::Memory) => Err(AllocError),
    }
}

/// Why a list that was found in a state has no text.
fn unread(found: FileState) -> ListRefusal {
    match found {
        FileState::Missing => ListRefusal::Missing,
        _ => ListRefusal::Unreadable,
    }
}

/// The text of a list, if it can be read and isn't too long.
pub(crate) fn read_list_text(
    alloc: Global,
    file: &File,
) -> Result<Result<Vec<u8>, ReadFault>, AllocError> {
    let mut text = Vec::new(alloc);
    let mut piece = Vec::new(alloc);
    piece.resize(PIECE, 0u8)?;
    let mut file = file;
    for _ in 0..=LIST_MAX {
        match file.read(piece.as_mut_slice()) {
            Ok(0) => return Ok(Ok(text)),
            Ok(count) => text.extend_from_slice(&piece[..count.min(PIECE)])?,
            Err(refused) if refused.kind() == ErrorKind::Interrupted => {}
            Err(_) => return Ok(Err(ReadFault::Unreadable)),
        }
        if text.len() > LIST_MAX {
            return Ok(Err(ReadFault::TooLong));
        }
    }
    Ok(Err(ReadFault::TooLong))
}
