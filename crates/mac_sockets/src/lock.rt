//! The lock of a socket's path: a file beside it, which one process has for as long as it runs.
use crate::place::PlaceFault;
use std::alloc::{AllocError, Global};
use std::fs::{File, Files, Metadata, OpenOptions, TryLockError};
use std::io::{ErrorKind, Read, Seek, SeekFrom, Write};
use std::os::unix::fs::{MetadataExt, OpenOptionsExt};
use std::process::Process;
use std::sync::Wait;
use std::time::{Clock, Duration};
use std::{fs, process, thread};

/// A lock file has the number of a process, a line feed, and no more.
const NUMBER_MAX: u64 = 16;

/// How often a lock file is opened anew that was removed before it was locked.
const OPENS: u64 = 8;

/// How often the turn to have a lock next is asked for. Who has the turn gives it back at its first
/// look after the end of the daemon that had the path, half a second later at most: the tries wait
/// for that look, and not for that end.
const TURN_TRIES: u64 = 20;

/// How many milliseconds pass behind each of these tries.
const TURN_MILLIS: u64 = 100;

/// How a process comes by a path.
#[derive(Clone, Copy, Debug, PartialEq, Eq)]
pub enum PathClaim {
    /// Nobody else may have it.
    Free,
    /// A daemon that has it gives it up.
    Replacing,
}

/// Which file something is.
#[derive(Clone, Copy, PartialEq, Eq)]
pub struct FileId {
    device: u64,
    inode: u64,
}

impl FileId {
    /// The file that the system told this of.
    pub fn of(found: &Metadata) -> FileId {
        FileId {
            device: found.dev(),
            inode: found.ino(),
        }
    }
}

/// What a process has of a path. No other process has the same as long as it is kept.
#[derive(Drop)]
pub enum PathLock {
    /// The lock of the path.
    Own(File),
    /// The turn to have that lock next, while another process has it.
    Next(LockTurn),
}

/// The turn to have a path's lock next: the lock of a further file.
#[derive(Drop)]
pub struct LockTurn {
    file: File,
    name: String,
}

impl PathLock {
    /// Takes the lock of a path, or the turn to have it next where that may be.
    pub fn take<R>(
        rt: &R,
        alloc: Global,
        path: &str,
        claim: PathClaim,
        process: Process,
    ) -> Result<PathLock, PlaceFault>
    where
        R: Files<File = File> + Clock + Wait,
    {
        match claim {
            PathClaim::Free => Ok(PathLock::Own(lock_path(rt, alloc, path, process)?)),
            PathClaim::Replacing => take_turn(rt, alloc, path, process),
        }
    }

    /// Whether it is the lock of the path.
    pub fn is_own(&self) -> bool {
        matches!(self, PathLock::Own(_))
    }

    /// Gives a turn back that isn't needed any more. The lock of the path is given back as its
    /// process ends, and its file stays.
    pub fn give_back<R: Files>(&self, rt: &R) {
        if let PathLock::Next(turn) = self {
            turn.give_back(rt);
        }
    }
}

impl LockTurn {
    /// Takes the turn, which another process may be about to give back.
    fn take<R>(rt: &R, alloc: Global, path: &str, process: Process) -> Result<LockTurn, PlaceFault>
    where
        R: Files<File = File> + Clock + Wait,
    {
        let name = format!(in alloc; "{path}.next.lock")?;
        for _ in 0..TURN_TRIES {
            match lock_file(rt, alloc, name.as_str(), process) {
                Ok(file) => return Ok(LockTurn { file, name }),
                Err(fault) if fault.is_locked() => {
                    thread::sleep(rt, Duration::from_millis(TURN_MILLIS));
                }
                Err(fault) => return Err(fault),
            }
        }
        Err(PlaceFault::Promised)
    }

    /// Removes the file of the turn, whose lock this process has still. Whoever has opened it
    /// before, and gets its lock then, finds that it is at no path any more, and makes another one.
    fn give_back<R: Files>(&self, rt: &R) {
        if is_there(rt, self.name.as_str(), &self.file).unwrap_or(false) {
            let _ = fs::remove_file(rt, self.name.as_str());
        }
    }
}

/// Takes the lock of a path, or the turn to have it next where another process has it.
fn take_turn<R>(rt: &R, alloc: Global, path: &str, process: Process) -> Result<PathLock, PlaceFault>
where
    R: Files<File = File> + Clock + Wait,
{
    let turn = LockTurn::take(rt, alloc, path, process)?;
    match lock_path(rt, alloc, path, process) {
        Ok(own) => {
            turn.give_back(rt);
            Ok(PathLock::Own(own))
        }
        Err(fault) if fault.is_locked() => Ok(PathLock::Next(turn)),
        Err(fault) => {
            turn.give_back(rt);
            Err(fault)
        }
    }
}

/// Takes the lock of a path.
pub fn lock_path<R>(rt: &R, alloc: Global, path: &str, process: Process) -> Result<File, PlaceFault>
where
    R: Files<File = File>,
{
    let name = name_lock(alloc, path)?;
    lock_file(rt, alloc, name.as_str(), process)
}

/// The path of the lock of a path.
pub fn name_lock(alloc: Global, path: &str) -> Result<String, AllocError> {
    format!(in alloc; "{path}.lock")
}

/// Locks a file, and writes into it which process has it. The system gives a lock back as its
/// process ends, however it ends.
fn lock_file<R>(rt: &R, alloc: Global, name: &str, process: Process) -> Result<File, PlaceFault>
where
    R: Files<File = File>,
{
    for _ in 0..OPENS {
        if let Some(file) = open_lock(rt, name)? {
            let locked = file.try_lock();
            if is_there(rt, name, &file)? {
                return keep_locked(alloc, file, locked, process);
            }
        }
    }
    Err(PlaceFault::LockedUnnamed)
}

/// Keeps a file whose lock was got, with the number of this process in it.
fn keep_locked(
    alloc: Global,
    file: File,
    locked: Result<(), TryLockError>,
    process: Process,
) -> Result<File, PlaceFault> {
    let mut file = file;
    let holder = read_holder(alloc, &mut file)?;
    match locked {
        Ok(()) => {}
        Err(TryLockError::WouldBlock) => return Err(PlaceFault::of_holder(holder)),
        Err(TryLockError::Error(refused)) => return Err(PlaceFault::System(refused)),
    }
    let line = format!(in alloc; "{}\n", process::id(process))?;
    file.set_len(0)?;
    file.seek(SeekFrom::Start(0))?;
    file.write_all(line.as_bytes())?;
    Ok(file)
}

/// Opens a lock's file, or makes it where nothing is there, if neither changed meanwhile. None is
/// made where a link leads. One that is there is looked at first, and again once it is open.
fn open_lock<R: Files<File = File>>(rt: &R, name: &str) -> Result<Option<File>, PlaceFault> {
    let mut options = File::options();
    options.read(true).write(true);
    match fs::symlink_metadata(rt, name) {
        Ok(found) => {
            check_lock(&found)?;
            open_unless(rt, &options, name, ErrorKind::NotFound)
        }
        Err(refused) if refused.kind() == ErrorKind::NotFound => {
            options.create_new(true).mode(0o600);
            open_unless(rt, &options, name, ErrorKind::AlreadyExists)
        }
        Err(refused) => Err(PlaceFault::from(refused)),
    }
}

/// Opens a file, but for a fault of this kind.
fn open_unless<R: Files<File = File>>(
    rt: &R,
    options: &OpenOptions,
    name: &str,
    but: ErrorKind,
) -> Result<Option<File>, PlaceFault> {
    match options.open(rt, name) {
        Ok(file) => Ok(Some(file)),
        Err(refused) if refused.kind() == but => Ok(None),
        Err(refused) => Err(PlaceFault::from(refused)),
    }
}

/// Whether a path leads to a file that is open, and which may be a lock.
fn is_there<R: Files>(rt: &R, name: &str, file: &File) -> Result<bool, PlaceFault> {
    let opened = file.metadata()?;
    match fs::symlink_metadata(rt, name) {
        Ok(found) => {
            check_lock(&found)?;
            Ok(FileId::of(&found) == FileId::of(&opened))
        }
        Err(refused) if refused.kind() == ErrorKind::NotFound => Ok(false),
        Err(refused) => Err(PlaceFault::from(refused)),
    }
}

/// Whether a file may be a lock: it is plain, has one name, and is this process's user's.
fn check_lock(found: &Metadata) -> Result<(), PlaceFault> {
    if !found.file_type().is_file() || found.nlink() > 1 {
        return Err(PlaceFault::NoLock);
    }
    if found.uid() != libc::geteuid() {
        return Err(PlaceFault::ForeignLock);
    }
    Ok(())
}

/// The process whose number a lock file has, if it has one. Any other text is no lock's, and is
/// left alone.
fn read_holder(alloc: Global, file: &mut File) -> Result<Option<u32>, PlaceFault> {
    if file.metadata()?.size() > NUMBER_MAX {
        return Err(PlaceFault::NoLock);
    }
    let mut text = Vec::new(alloc);
    file.read_to_end(&mut text)?;
    if text.is_empty() {
        return Ok(None);
    }
    let Ok(line) = str::from_utf8(text.as_slice()) else {
        return Err(PlaceFault::NoLock);
    };
    let Some(number) = line.strip_suffix("\n") else {
        return Err(PlaceFault::NoLock);
    };
    match number.parse::<u32>() {
        Ok(number) => Ok(Some(number)),
        Err(_) => Err(PlaceFault::NoLock),
    }
}
