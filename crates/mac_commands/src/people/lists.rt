//! Lists of tokens that were taken back, read and written.
ghost use Rattle.std.specs.Prelude.{◌≡◌, IfOk, Ok};
ghost use Rattle.mac_keys.specs.Revoked.{revoked_of};
ghost use Rattle.mac_commands.specs.Doing.{ChangesList, IsList, IsTableWith};

use super::PersonFault;
use super::given::load_keys;
use super::key_files::{Kept, put_in_place};
use crate::list_store::read_list_text;
use mac_board::{ListRefusal, ReadFault};
use mac_keys::{KeyTable, RevokedFault, RevokedList};
use std::alloc::{Alloc, AllocError, Global};
use std::fs::{File, Files};

/// The keys of a file, beside the list of another one where one is named.
pub(super) fn load_table<'a, R>(
    rt: &R,
    keys: &'a str,
    revoked: &'a Option<String>,
) -> Result<KeyTable, PersonFault<'a>>
where
    R: Files<File = File> + Alloc<A = Global>,
    ensures { IfOk result (IsTableWith revoked.now) }
{
    let mut table = load_keys(rt, keys)?;
    match revoked {
        Some(path) => {
            let list = load_list(rt, path.as_str())?;
            table.take_back(&list)?;
            Ok(table)
        }
        None => Ok(table),
    }
}

/// The list of a file.
fn load_list<'a, R>(rt: &R, path: &'a str) -> Result<RevokedList, PersonFault<'a>>
where
    R: Files<File = File> + Alloc<A = Global>,
    ensures { IfOk result IsList }
{
    let text = read_text_of_list(rt, path)?;
    read_list(rt.alloc(), path, text.as_slice())
}

/// The text of a list.
pub(super) fn read_text_of_list<'a, R>(rt: &R, path: &'a str) -> Result<Vec<u8>, PersonFault<'a>>
where
    R: Files<File = File> + Alloc<A = Global>,
{
    let Ok(file) = File::open(rt, path) else {
        return Err(fault_of_list(rt, path, ReadFault::Unreadable));
    };
    match read_list_text(rt.alloc(), &file)? {
        Ok(text) => Ok(text),
        Err(why) => Err(fault_of_list(rt, path, why)),
    }
}

/// Why the list at a path has no text.
pub(super) fn fault_of_list<'a, R: Files>(
    rt: &R,
    path: &'a str,
    why: ReadFault,
) -> PersonFault<'a> {
    let why = match why {
        ReadFault::TooLong => ListRefusal::TooLong,
        ReadFault::Exposed(exposure) => ListRefusal::Exposed(exposure),
        ReadFault::Unreadable => ListRefusal::Unreadable,
    };
    PersonFault::of_list(rt, path, why)
}

/// What the text of a list takes back.
pub(super) fn read_list<'a>(
    alloc: Global,
    path: &'a str,
    text: &[u8],
) -> Result<RevokedList, PersonFault<'a>>
    ensures { IfOk result (λ list. revoked_of text.now ≡ Ok list) }
{
    match RevokedList::read(alloc, text) {
        Ok(list) => Ok(list),
        Err(RevokedFault::Line { line, kind }) => Err(PersonFault::List {
            path,
            why: ListRefusal::Faulty { line, kind },
        }),
        Err(RevokedFault::Memory) => Err(AllocError.into()),
    }
}

/// Puts a changed list in the place of a file's: with one line more, or without those that take
/// tokens of a name with an identifier back.
pub(super) fn replace_list<'a, R>(
    rt: &R,
    path: &'a str,
    kept: &Kept,
    name: &str,
    identifier: &[u8],
    changed: &[u8],
) -> Result<(), PersonFault<'a>>
where
    R: Files<File = File> + Alloc<A = Global>,
    requires { ChangesList name.now identifier.now kept.now.text.items changed.now }
{
    put_in_place(rt, path, kept, changed)
}
