//! What is said of a key file that is right in itself: who may use it, that a secret is soon
//! guessed, and that it has no key.

use crate::key_file::{KeysRead, access_of};
use mac_board::{Access, Exposure, Reader, find_exposure, reader_of};
use mac_keys::SOUND_BYTES;
use std::fs::{self, Files};

/// The number of the user root.
const ROOT: u32 = 0;

/// Whether a daemon may have the keys of a file that was read: others may not use it, unless that
/// was asked for. Says on standard error why not, and what is amiss besides.
pub fn admit_keys<R: Eprint>(rt: &R, path: &str, read: &KeysRead, of_others: bool) -> bool {
    if let Some(why) = exposure_of(read.access) {
        if !of_others {
            let _ = eprintln!(rt; "error: {path}: {why}; or take it so by --keys-of-others");
            return false;
        }
        let _ = eprintln!(rt; "warning: {path}: {why}");
    }
    warn_of_weak(rt, path, read.weak);
    warn_of_no_keys(rt, path, read.table.len());
    true
}

/// Why a key file isn't for a daemon of this process alone.
pub(crate) fn exposure_of(access: Access) -> Option<Exposure> {
    find_exposure(access, reader_of(access, libc::geteuid(), libc::getegid()))
}

/// Warns on standard error of a key file that others may use. Root looks at the files of others,
/// and takes a file for one that its owner's daemon reads, by its group.
pub fn warn_of_readers<R: Files + Eprint>(rt: &R, path: &str) {
    let Ok(found) = fs::metadata(rt, path) else {
        return;
    };
    let access = access_of(&found);
    let exposure = if libc::geteuid() == ROOT {
        let reader = Reader {
            user: access.owner,
            group: access.group,
        };
        find_exposure(access, reader)
    } else {
        exposure_of(access)
    };
    if let Some(why) = exposure {
        let _ = eprintln!(rt; "warning: {path}: {why}");
    }
}

/// Warns on standard error of a line of a key file whose secret is soon guessed.
pub(crate) fn warn_of_weak<R: Eprint>(rt: &R, path: &str, weak: Option<usize>) {
    if let Some(place) = weak {
        let line = place.saturating_add(1);
        let _ = eprintln!(rt;
            "warning: {path}: line {line}: the secret has fewer than {} bytes, which may be \
            guessed; `macaroond keygen NAME` prints a line with 32",
            SOUND_BYTES
        );
    }
}

/// Warns on standard error of a key file that gives no name a key.
pub fn warn_of_no_keys<R: Eprint>(rt: &R, path: &str, names: usize) {
    if names == 0 {
        let _ = eprintln!(rt;
            "warning: {path}: the key file has no key; `macaroond keygen NAME` prints a line for it"
        );
    }
}
