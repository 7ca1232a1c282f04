//! Why a file that is named gives nothing, in words for who starts a daemon and who asks for
//! something once.

use crate::fault::PipeFault;
use crate::people::PersonFault;
use std::fs;
use std::fs::{File, Files};
use std::io::ErrorKind;
use thiserror::Error;

/// Why the system doesn't give the text of a file.
#[derive(Clone, Copy, Debug, Error)]
pub enum ReadRefusal {
    /// There is no file.
    #[error("there is none")]
    Missing,
    /// There is a folder.
    #[error("it is a folder; give the path of a file in it")]
    Folder,
    /// The user of the process may not read it.
    #[error("no permission; give it to the daemon's user")]
    Forbidden,
    /// The system tells no more.
    #[error("look whether it is a file on a sound disk")]
    Other,
}

impl ReadRefusal {
    /// Why the file at a path can't be read.
    pub(crate) fn find<R: Files>(rt: &R, path: &str) -> ReadRefusal {
        match fs::metadata(rt, path) {
            Err(refused) => ReadRefusal::of_kind(refused.kind()),
            Ok(found) if found.is_dir() => ReadRefusal::Folder,
            Ok(_) => match File::open(rt, path) {
                Err(refused) => ReadRefusal::of_kind(refused.kind()),
                Ok(_) => ReadRefusal::Other,
            },
        }
    }

    /// Why a file can't be read for which the system gives this error.
    fn of_kind(kind: ErrorKind) -> ReadRefusal {
        match kind {
            ErrorKind::NotFound => ReadRefusal::Missing,
            ErrorKind::PermissionDenied => ReadRefusal::Forbidden,
            _ => ReadRefusal::Other,
        }
    }
}

/// Says on standard error why the key file at a path gives no table.
pub(crate) fn say_key_fault<R: Eprint + Files>(rt: &R, path: &str, fault: PipeFault) {
    let _ = eprintln!(rt; "error: {}", PersonFault::of_key_file(rt, path, fault));
}
