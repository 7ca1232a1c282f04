//! Whether what is printed goes to systemd's journal (`systemd.exec(5)`, `JOURNAL_STREAM`).

ghost use Rattle.std.specs.Prelude.{◌≡◌, IfOk};
ghost use Rattle.mac_system.specs.Journal.{names_file};

use crate::NoMemory;
use crate::variable::variable;
use std::alloc::{Alloc, Global};
use std::env::Env;
use std::fs;
use std::fs::Files;
use std::os::unix::fs::MetadataExt;

/// What standard error is open on.
const STANDARD_ERROR: &str = "/proc/self/fd/2";

/// Whether standard error is the stream to the journal that the environment names. It isn't where
/// it was sent elsewhere since.
pub fn is_journal<R: Env + Alloc<A = Global> + Files>(rt: &R) -> bool {
    let Ok(Some(told)) = variable(rt, "JOURNAL_STREAM") else {
        return false;
    };
    match fs::metadata(rt, STANDARD_ERROR) {
        Ok(found) => {
            names_file(rt.alloc(), told.as_str(), found.dev(), found.ino()).unwrap_or(false)
        }
        Err(_) => false,
    }
}

/// Whether a text names the file of a device that has this number on it.
pub fn names_file(alloc: Global, told: &str, device: u64, number: u64) -> Result<bool, NoMemory>
    ensures { IfOk result (λ is. is ≡ names_file told.now device number) }
{
    let name = format!(in alloc; "{device}:{number}")?;
    Ok(told == name.as_str())
}
