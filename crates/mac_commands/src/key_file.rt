//! Reading the key file of a daemon.
ghost use Rattle.std.specs.Prelude.{IfOk};
ghost use Rattle.mac_commands.specs.Doing.{IsKeyTable};

use crate::fault::PipeFault;
use crate::input::read_input;
use crate::piping::read_table;
use mac_board::Access;
use mac_keys::{KeyTable, find_weak, wipe};
use mac_wire::ReaderSource;
use std::alloc::{Alloc, Global};
use std::fs::{File, Files, Metadata, OpenFile};
use std::os::unix::fs::MetadataExt;

/// The part of a file's mode that `chmod` sets.
const PERMISSIONS: u32 = 0o7777;

/// What a key file gave.
#[derive(Drop)]
pub struct KeysRead {
    /// Its table.
    pub table: KeyTable,
    /// Whose the file is that was read, and what each may do with it.
    pub(crate) access: Access,
    /// The place of the first line, counted from 0, whose secret is soon guessed.
    pub(crate) weak: Option<usize>,
}

/// The table of a key file of at most `INPUT_MAX` bytes.
pub fn read_keys<R>(rt: &R, path: &str) -> Result<KeyTable, PipeFault>
where
    R: Files + Alloc<A = Global>,
    R::File: Send,
    ensures { IfOk result IsKeyTable }
{
    let KeysRead { table, .. } = read_key_file(rt, path)?;
    Ok(table)
}

/// The same, with what is to be known of the file besides. Its text is overwritten.
pub fn read_key_file<R>(rt: &R, path: &str) -> Result<KeysRead, PipeFault>
where
    R: Files + Alloc<A = Global>,
    R::File: Send,
    ensures { IfOk result (λ read. IsKeyTable read.table) }
{
    let Ok(file) = File::open(rt, path) else {
        return Err(PipeFault::Device);
    };
    let Ok(found) = file.metadata() else {
        return Err(PipeFault::Device);
    };
    let mut text = read_input(rt.alloc(), &mut ReaderSource::new(file))?;
    let weak = find_weak(text.as_slice());
    let table = read_table(rt.alloc(), text.as_slice());
    wipe(text.as_mut_slice());
    Ok(KeysRead {
        table: table?,
        access: access_of(&found),
        weak,
    })
}

/// Whose a file is, and what each may do with it, as the system tells.
pub(crate) fn access_of(found: &Metadata) -> Access {
    Access {
        owner: found.uid(),
        group: found.gid(),
        mode: found.mode() & PERMISSIONS,
    }
}
