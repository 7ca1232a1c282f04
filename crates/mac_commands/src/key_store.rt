//! The key file of a daemon, and its text.
ghost use Rattle.std.specs.Prelude.{IfOk};
ghost use Rattle.mac_commands.specs.Doing.{IsKeyTable};

use crate::fault::PipeFault;
use crate::input::read_input;
use crate::key_file::{KeysRead, read_key_file};
use crate::observed_file::ObservedFile;
use mac_board::{FileState, ReadFault};
use mac_wire::ReaderSource;
use std::alloc::{Alloc, AllocError, Global};
use std::fs::{File, Files};

/// A key file that a daemon follows.
#[derive(Clone, Copy)]
pub struct KeyPlace<'a> {
    /// Its path.
    pub path: &'a str,
    /// Whether others may use it.
    pub of_others: bool,
}

/// What a key file gave first.
#[derive(Drop)]
pub struct FirstKeys {
    /// Its table, and what is to be known of the file besides.
    pub read: KeysRead,
    /// The state of the file before it was read.
    pub before: FileState,
    /// Its state after.
    pub after: FileState,
}

/// Reads a key file for the first time.
pub fn read_first<R>(rt: &R, keys: KeyPlace<'_>) -> Result<FirstKeys, PipeFault>
where
    R: Files + Alloc<A = Global>,
    R::File: Send,
    ensures { IfOk result (λ first. IsKeyTable first.read.table) }
{
    let mut file = ObservedFile::new(keys.path, keys.of_others);
    let before = file.find(rt);
    let read = read_key_file(rt, keys.path)?;
    let after = file.find(rt);
    Ok(FirstKeys {
        read,
        before,
        after,
    })
}

/// The text of a file, if it can be read and isn't too long.
pub(crate) fn read_text(
    alloc: Global,
    file: &File,
) -> Result<Result<Vec<u8>, ReadFault>, AllocError> {
    match read_input(alloc, &mut ReaderSource::new(file)) {
        Ok(text) => Ok(Ok(text)),
        Err(PipeFault::TooLong) => Ok(Err(ReadFault::TooLong)),
        Err(PipeFault::Memory) => Err(AllocError),
        Err(_) => Ok(Err(ReadFault::Unreadable)),
    }
}
