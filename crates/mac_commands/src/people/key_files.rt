//! Key files, and lists of tokens that were taken back, read and written.
ghost use Rattle.std.specs.Prelude.{◌≡◌};
ghost use Rattle.mac_commands.specs.Doing.{IsChanged, IsSomeLine};

use super::PersonFault;
use super::keygen::Change;
use super::lists::fault_of_list;
use super::new_file::{Beside, find_itself, is_one, sync_folder};
use crate::fault::PipeFault;
use crate::input::read_input;
use crate::list_store::read_list_text;
use crate::observed_file::Held;
use mac_board::ReadFault;
use mac_keys::wipe;
use mac_wire::ReaderSource;
use std::alloc::{Alloc, Global};
use std::fs::{self, File, Files, Metadata};
use std::io;

/// A file as it was read to be changed.
#[derive(Drop)]
pub(super) struct Kept {
    /// Its text.
    pub(super) text: Vec<u8>,
    /// What it holds.
    held: Held,
    /// What the system tells of the very file that was read.
    found: Metadata,
}

/// The text of a key file of at most `INPUT_MAX` bytes.
pub(super) fn read_text<'a, R>(rt: &R, path: &'a str) -> Result<Vec<u8>, PersonFault<'a>>
where
    R: Files + Alloc<A = Global>,
    R::File: Send,
{
    let Ok(file) = File::open(rt, path) else {
        return Err(PersonFault::of_key_file(rt, path, PipeFault::Device));
    };
    match read_input(rt.alloc(), &mut ReaderSource::new(file)) {
        Ok(text) => Ok(text),
        Err(fault) => Err(PersonFault::of_key_file(rt, path, fault)),
    }
}

/// Reads a file that is to be changed: the file itself, and none that a link leads to.
pub(super) fn read_kept<'a, R>(rt: &R, path: &'a str, held: Held) -> Result<Kept, PersonFault<'a>>
where
    R: Files<File = File> + Alloc<A = Global>,
{
    let named = find_itself(rt, path)?;
    let Ok(file) = File::open(rt, path) else {
        return Err(fault_of(rt, path, held));
    };
    let Ok(found) = file.metadata() else {
        return Err(fault_of(rt, path, held));
    };
    if !is_one(&named, &found) {
        return Err(PersonFault::Meanwhile { path });
    }
    let text = read_held(rt, path, held, &file)?;
    Ok(Kept { text, held, found })
}

/// The text of a file that holds this.
fn read_held<'a, R>(
    rt: &R,
    path: &'a str,
    held: Held,
    file: &File,
) -> Result<Vec<u8>, PersonFault<'a>>
where
    R: Files<File = File> + Alloc<A = Global>,
{
    match held {
        Held::Keys => match read_input(rt.alloc(), &mut ReaderSource::new(file)) {
            Ok(text) => Ok(text),
            Err(fault) => Err(PersonFault::of_key_file(rt, path, fault)),
        },
        Held::List => match read_list_text(rt.alloc(), file)? {
            Ok(text) => Ok(text),
            Err(why) => Err(fault_of_list(rt, path, why)),
        },
    }
}

/// Why a file that is to hold this isn't read.
fn fault_of<'a, R: Files>(rt: &R, path: &'a str, held: Held) -> PersonFault<'a> {
    match held {
        Held::Keys => PersonFault::of_key_file(rt, path, PipeFault::Device),
        Held::List => fault_of_list(rt, path, ReadFault::Unreadable),
    }
}

/// Makes a file that isn't there yet, for its owner alone, of a key line. Where that fails, no file
/// is left.
pub(super) fn create_file<'a, R>(rt: &R, path: &'a str, line: &[u8]) -> Result<(), PersonFault<'a>>
where
    R: Files<File = File> + Alloc<A = Global>,
    requires { IsSomeLine line.now }
{
    make_file(rt, path, line)
}

/// Makes a file that isn't there yet, for its owner alone, of this text. Where that fails, no file
/// is left.
pub(super) fn make_file<'a, R>(rt: &R, path: &'a str, text: &[u8]) -> Result<(), PersonFault<'a>>
where
    R: Files<File = File> + Alloc<A = Global>,
{
    if fs::symlink_metadata(rt, path).is_ok() {
        return Err(PersonFault::Exists { path });
    }
    let beside = Beside::take(rt, path)?;
    let made = match beside.write(None, text) {
        Ok(()) => beside.link(rt, path),
        Err(fault) => Err(fault),
    };
    beside.remove(rt);
    match made {
        Ok(()) => sync_folder(rt, path),
        Err(error) if error.kind() == io::ErrorKind::AlreadyExists => {
            Err(PersonFault::Exists { path })
        },
        Err(_) => Err(PersonFault::Unwritten { path }),
    }
}

/// Puts a changed text in the place of that of a key file: into a new file of its owner, its group
/// and its permissions beside it, which is moved over it then. Where that fails, the old file is as
/// it was.
pub(super) fn replace_file<'a, R>(
    rt: &R,
    change: Change,
    name: &str,
    path: &'a str,
    kept: &Kept,
    changed: &[u8],
) -> Result<(), PersonFault<'a>>
where
    R: Files<File = File> + Alloc<A = Global>,
    requires { IsChanged change name.now kept.now.text.items changed.now }
{
    put_in_place(rt, path, kept, changed)
}

/// Puts a text in the place of that of a file, as above.
pub(super) fn put_in_place<'a, R>(
    rt: &R,
    path: &'a str,
    kept: &Kept,
    changed: &[u8],
) -> Result<(), PersonFault<'a>>
where
    R: Files<File = File> + Alloc<A = Global>,
{
    let by_hand = format!(in rt.alloc(); "{path}.new")?;
    if fs::symlink_metadata(rt, by_hand.as_str()).is_ok() {
        return Err(PersonFault::Beside { path });
    }
    let beside = Beside::take(rt, path)?;
    let moved = match beside.write(Some(&kept.found), changed) {
        Ok(()) => move_over(rt, &beside, path, kept),
        Err(_) => Err(PersonFault::Unwritten { path }),
    };
    match moved {
        Ok(()) => sync_folder(rt, path),
        Err(fault) => {
            beside.remove(rt);
            Err(fault)
        },
    }
}

/// Moves the new file over the old one, if that still has the text that it was read with.
fn move_over<'a, R>(
    rt: &R,
    beside: &Beside,
    path: &'a str,
    kept: &Kept,
) -> Result<(), PersonFault<'a>>
where
    R: Files<File = File> + Alloc<A = Global>,
{
    let mut now = read_kept(rt, path, kept.held)?;
    let is_same = now.text.as_slice() == kept.text.as_slice();
    wipe(now.text.as_mut_slice());
    if !is_same {
        return Err(PersonFault::Meanwhile { path });
    }
    match beside.move_over(rt, path) {
        Ok(()) => Ok(()),
        Err(_) => Err(PersonFault::Unwritten { path }),
    }
}
