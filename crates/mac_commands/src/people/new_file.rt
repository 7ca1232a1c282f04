//! The new file beside a key file, `FILE.keygen`, which one run at a time has.

use super::PersonFault;
use crate::fault::PipeFault;
use std::alloc::{Alloc, Global};
use std::fs::{self, File, Files, Metadata, OpenOptions, Permissions};
use std::io::{self, ErrorKind, Write};
use std::os::fd::AsRawFd;
use std::os::unix::fs::{MetadataExt, OpenOptionsExt, PermissionsExt};

/// The permissions of a key file: its owner alone reads and writes it.
const OWNER_ALONE: u32 = 0o600;

/// What a group and others may do with a file, but for a group that reads.
const SHARED: u32 = 0o037;

/// What a group may do with a file.
const GROUP: u32 = 0o070;

/// A new file. Its lock goes with the run that made it, so that the next run can tell what a run
/// that was cut left.
#[derive(Drop)]
pub(super) struct Beside {
    file: File,
    path: String,
}

impl Beside {
    /// Makes the new file beside a key file, in place of one that a run that was cut left.
    pub(super) fn take<'a, R>(rt: &R, path: &'a str) -> Result<Beside, PersonFault<'a>>
    where
        R: Files<File = File> + Alloc<A = Global>,
    {
        let beside = format!(in rt.alloc(); "{path}.keygen")?;
        let file = match create_new(rt, beside.as_str()) {
            Err(error) if error.kind() == ErrorKind::AlreadyExists => {
                clear_left(rt, path, beside.as_str())?;
                create_new(rt, beside.as_str())
            },
            made => made,
        };
        match file {
            Ok(file) => hold(rt, path, beside, file),
            Err(error) if error.kind() == ErrorKind::AlreadyExists => {
                Err(PersonFault::Busy { path })
            },
            Err(_) => Err(PersonFault::Unwritten { path }),
        }
    }

    /// Writes it whole, for who may use another file, if there is one, and waits until it is on the
    /// disk.
    pub(super) fn write(&self, owned: Option<&Metadata>, bytes: &[u8]) -> io::Result<()> {
        if let Some(other) = owned {
            give_as(&self.file, other)?;
        }
        let mut file = self.file.try_clone()?;
        file.write_all(bytes)?;
        file.sync_all()
    }

    /// Gives it a second name, at which nothing may be yet.
    pub(super) fn link<R: Files>(&self, rt: &R, path: &str) -> io::Result<()> {
        fs::hard_link(rt, self.path.as_str(), path)
    }

    /// Moves it over the file at a path.
    pub(super) fn move_over<R: Files>(&self, rt: &R, path: &str) -> io::Result<()> {
        fs::rename(rt, self.path.as_str(), path)
    }

    /// Removes its name.
    pub(super) fn remove<R: Files>(&self, rt: &R) {
        let _ = fs::remove_file(rt, self.path.as_str());
    }
}

/// What the system tells of the file at a path that is to be changed: a plain file, and no link.
pub(super) fn find_itself<'a, R: Files>(
    rt: &R,
    path: &'a str,
) -> Result<Metadata, PersonFault<'a>> {
    match fs::symlink_metadata(rt, path) {
        Ok(found) if found.is_file() => Ok(found),
        Ok(found) if found.is_symlink() => Err(PersonFault::Link { path }),
        _ => Err(PersonFault::of_key_file(rt, path, PipeFault::Device)),
    }
}

/// Whether two files are one.
pub(super) fn is_one(one: &Metadata, other: &Metadata) -> bool {
    one.dev() == other.dev() && one.ino() == other.ino()
}

/// Brings the names of the folder of a file to the disk.
pub(super) fn sync_folder<'a, R>(rt: &R, path: &'a str) -> Result<(), PersonFault<'a>>
where
    R: Files<File = File>,
{
    let synced = match File::open(rt, folder_of(path)) {
        Ok(folder) => folder.sync_all(),
        Err(refused) => Err(refused),
    };
    match synced {
        Ok(()) => Ok(()),
        Err(_) => Err(PersonFault::Unsynced { path }),
    }
}

/// The folder of the file at a path.
fn folder_of(path: &str) -> &str {
    match path.rsplit_once('/') {
        Some(("", _)) => "/",
        Some((folder, _)) => folder,
        None => ".",
    }
}

/// Makes a file that isn't there yet, for its owner alone. No link is followed.
fn create_new<R: Files<File = File>>(rt: &R, path: &str) -> io::Result<File> {
    let mut options = OpenOptions::new();
    options.write(true).create_new(true).mode(OWNER_ALONE);
    options.open(rt, path)
}

/// Has a new file for this run alone, unless another run took it for one that was left.
fn hold<'a, R>(rt: &R, path: &'a str, beside: String, file: File) -> Result<Beside, PersonFault<'a>>
where
    R: Files<File = File>,
{
    if file.try_lock().is_err() || !is_at(rt, &file, beside.as_str()) {
        return Err(PersonFault::Busy { path });
    }
    Ok(Beside { file, path: beside })
}

/// Removes the new file that a run that was cut left: one that no run has.
fn clear_left<'a, R>(rt: &R, path: &'a str, beside: &str) -> Result<(), PersonFault<'a>>
where
    R: Files<File = File>,
{
    match fs::symlink_metadata(rt, beside) {
        Ok(found) if found.is_file() => {},
        _ => return Err(PersonFault::Left { path }),
    }
    let Ok(file) = File::open(rt, beside) else {
        return Err(PersonFault::Left { path });
    };
    if file.try_lock().is_err() || !is_at(rt, &file, beside) {
        return Err(PersonFault::Busy { path });
    }
    let _ = fs::remove_file(rt, beside);
    Ok(())
}

/// Whether a file stands at a path itself.
fn is_at<R: Files>(rt: &R, file: &File, path: &str) -> bool {
    match (file.metadata(), fs::symlink_metadata(rt, path)) {
        (Ok(found), Ok(named)) => is_one(&found, &named),
        _ => false,
    }
}

/// Gives a new file to the owner and the group of another one, with its permissions, unless these
/// are wider than a key file's may be. A group that may do nothing with it need not be the same.
fn give_as(file: &File, other: &Metadata) -> io::Result<()> {
    let own = file.metadata()?;
    let is_owners = own.uid() == other.uid();
    let is_theirs = is_owners && own.gid() == other.gid();
    let is_given = is_theirs || give_to(file, other.uid(), other.gid());
    let permissions = permissions_like(other.mode());
    if is_given || is_owners && permissions & GROUP == 0 {
        file.set_permissions(Permissions::from_mode(permissions))
    } else {
        Err(io::Error::from(ErrorKind::PermissionDenied))
    }
}

/// Gives a file to an owner and a group, and does so again where a signal broke that off.
fn give_to(file: &File, owner: u32, group: u32) -> bool {
    for _ in 0..u64::MAX {
        if libc::fchown(file.as_raw_fd(), owner, group) == 0 {
            return true;
        }
        if os::errno() != libc::EINTR {
            return false;
        }
    }
    false
}

/// The permissions of a file of this mode, or where others than its group may use it or its group
/// may write it, those of its owner alone.
fn permissions_like(mode: u32) -> u32 {
    if mode & SHARED == 0 {
        mode & (OWNER_ALONE | GROUP)
    } else {
        OWNER_ALONE
    }
}
