//! What a process has of the paths of its sockets. Each socket is made out of reach, and all are
//! put in their places once the daemon serves them.
use crate::lock::{FileId, PathClaim, PathLock, lock_path, name_lock};
use crate::place::{PATH_MAX, PlaceFault, check_length};
use std::alloc::{AllocError, Global};
use std::fs::{DirBuilder, File, Files, Permissions};
use std::io::ErrorKind;
use std::net::Net;
use std::os::unix::fs::{DirBuilderExt, FileTypeExt, PermissionsExt};
use std::os::unix::net::{UnixListener, UnixStream};
use std::process::Process;
use std::sync::Wait;
use std::time::Clock;
use std::{fs, io, process};

/// How many bytes stand behind the path while the socket is made: `.new/s` or `.nxt/s`.
const INSIDE: usize = 6;

/// A path, and the socket of this process that has it or is to have it.
#[derive(Drop)]
struct Holding {
    made: Made,
    lock: PathLock,
    is_placed: bool,
    // Whether another socket was in its place at the last look.
    is_replaced: bool,
    // Whether it was told that the system refuses the looks at it.
    is_told: bool,
}

/// A socket that was made for a path.
#[derive(Drop)]
struct Made {
    path: String,
    // The folder in which the socket is made, and its path there.
    folder: String,
    inside: String,
    // Which file the path's lock is, whatever spelling of the path names it.
    lock_file: Option<FileId>,
    socket: FileId,
}

/// What a look at the paths of a process's sockets came to.
#[derive(Drop)]
pub struct PathsLook<'a> {
    /// The path in whose place there is another socket, if there is one: the main one, where that
    /// is among them.
    pub replaced: Option<&'a str>,
    /// What the system refused of one path, once until a look at that path goes well.
    pub refused: Option<PlaceFault>,
}

/// The paths of the sockets that a process makes.
#[derive(Drop)]
pub struct Holdings {
    alloc: Global,
    claim: PathClaim,
    process: Process,
    held: Vec<Holding>,
}

impl Holdings {
    /// No path yet. Those that come are claimed so.
    pub fn new(alloc: Global, claim: PathClaim, process: Process) -> Holdings {
        Holdings {
            alloc,
            claim,
            process,
            held: Vec::new(alloc),
        }
    }

    /// A listener whose socket is to be at a path, with these permissions. Nobody can reach it
    /// before it is put in its place. One process at a time has a path; a socket on which nobody
    /// listens is taken over.
    pub fn bind<R>(
        &mut self,
        rt: &R,
        path: &str,
        permissions: u32,
    ) -> Result<UnixListener, PlaceFault>
    where
        R: Files<File = File> + Net + Clock + Wait,
    {
        let alloc = self.alloc;
        check_length(path, PATH_MAX - INSIDE)?;
        if self.has(rt, path)? {
            return Err(PlaceFault::Locked(process::id(self.process)));
        }
        self.held.reserve(1)?;
        let lock = PathLock::take(rt, alloc, path, self.claim, self.process)?;
        let made = Made::make(rt, alloc, path, permissions, &lock);
        if made.is_err() {
            lock.give_back(rt);
        }
        let (made, listener) = made?;
        let holding = Holding {
            made,
            lock,
            is_placed: false,
            is_replaced: false,
            is_told: false,
        };
        match self.held.push(holding) {
            Ok(()) => Ok(listener),
            Err(_) => Err(PlaceFault::NoMemory),
        }
    }

    /// Whether a path is among them, however it is spelled: they have its lock.
    fn has<R: Files>(&self, rt: &R, path: &str) -> Result<bool, PlaceFault> {
        let Some(lock_file) = find_lock(rt, self.alloc, path)? else {
            return Ok(false);
        };
        let is_held = |holding: &Holding| holding.made.lock_file == Some(lock_file);
        Ok(self.held.iter().any(is_held))
    }

    /// Puts each socket in its place.
    pub fn place_all<R: Files>(&mut self, rt: &R) -> Result<(), PlaceFault> {
        for holding in self.held.iter_mut() {
            holding.place(rt)?;
        }
        Ok(())
    }

    /// Removes the sockets that were not put in their places, and gives back each turn to have a
    /// lock.
    pub fn clear<R: Files>(&self, rt: &R) {
        for holding in &self.held {
            if !holding.is_placed {
                holding.made.remove(rt);
            }
            holding.lock.give_back(rt);
        }
    }

    /// Takes each lock that was given up since, and looks whether another socket is in a place.
    /// What is refused is tried again at the next look, and of two paths one is told then.
    pub fn look<R: Files<File = File>>(&mut self, rt: &R, main: &str) -> PathsLook<'_> {
        let mut refused = None;
        for holding in self.held.iter_mut() {
            match holding.look(rt, self.alloc, self.process) {
                Ok(()) => holding.is_told = false,
                Err(fault) if refused.is_none() && !holding.is_told => {
                    holding.is_told = true;
                    refused = Some(fault);
                }
                Err(_) => {}
            }
        }
        PathsLook {
            replaced: self.replaced(main),
            refused,
        }
    }

    /// The path that was found replaced, if there is one: the main one, where that is among them.
    fn replaced(&self, main: &str) -> Option<&str> {
        let mut taken = None;
        for holding in &self.held {
            if holding.is_replaced {
                let path = holding.made.path.as_str();
                if path == main {
                    return Some(path);
                }
                taken = Some(path);
            }
        }
        taken
    }
}

impl Holding {
    fn place<R: Files>(&mut self, rt: &R) -> Result<(), PlaceFault> {
        fs::rename(rt, self.made.inside.as_str(), self.made.path.as_str())?;
        self.is_placed = true;
        let _ = fs::remove_dir(rt, self.made.folder.as_str());
        Ok(())
    }

    /// Takes the lock where it was given up, and looks whether another socket is in its place.
    fn look<R: Files<File = File>>(
        &mut self,
        rt: &R,
        alloc: Global,
        process: Process,
    ) -> Result<(), PlaceFault> {
        let taken = self.take_lock(rt, alloc, process);
        self.is_replaced = self.find_replaced(rt)?;
        taken
    }

    /// Takes the lock of the path, where only the turn to have it was had, and gives that back. It
    /// is no fault that another process has the lock.
    fn take_lock<R: Files<File = File>>(
        &mut self,
        rt: &R,
        alloc: Global,
        process: Process,
    ) -> Result<(), PlaceFault> {
        if self.lock.is_own() {
            return Ok(());
        }
        match lock_path(rt, alloc, self.made.path.as_str(), process) {
            Ok(own) => {
                self.lock.give_back(rt);
                self.lock = PathLock::Own(own);
                Ok(())
            }
            Err(fault) if fault.is_locked() => Ok(()),
            Err(fault) => Err(fault),
        }
    }

    /// Whether another socket is in its place.
    fn find_replaced<R: Files>(&self, rt: &R) -> Result<bool, PlaceFault> {
        if !self.is_placed {
            return Ok(false);
        }
        match fs::symlink_metadata(rt, self.made.path.as_str()) {
            Ok(found) => {
                Ok(found.file_type().is_socket() && FileId::of(&found) != self.made.socket)
            }
            Err(refused) if refused.kind() == ErrorKind::NotFound => Ok(false),
            Err(refused) => Err(PlaceFault::from(refused)),
        }
    }
}

impl Made {
    /// Makes a socket with these permissions for a path of which the process has this lock.
    fn make<R: Files + Net>(
        rt: &R,
        alloc: Global,
        path: &str,
        permissions: u32,
        lock: &PathLock,
    ) -> Result<(Made, UnixListener), PlaceFault> {
        let lock_file = find_lock(rt, alloc, path)?;
        check_place(rt, path, lock)?;
        let folder = format!(in alloc; "{path}.{}", ending_of(lock))?;
        let inside = format!(in alloc; "{folder}/s")?;
        let path = String::from_str(alloc, path)?;
        let (listener, socket) = make_inside(rt, folder.as_str(), inside.as_str(), permissions)?;
        let made = Made {
            path,
            folder,
            inside,
            lock_file,
            socket,
        };
        Ok((made, listener))
    }

    /// Removes it where it was made.
    fn remove<R: Files>(&self, rt: &R) {
        remove_made(rt, self.folder.as_str(), self.inside.as_str());
    }
}

/// Which file the lock of a path is, if it is there.
fn find_lock<R: Files>(rt: &R, alloc: Global, path: &str) -> Result<Option<FileId>, AllocError> {
    let name = name_lock(alloc, path)?;
    match fs::symlink_metadata(rt, name.as_str()) {
        Ok(found) => Ok(Some(FileId::of(&found))),
        Err(_) => Ok(None),
    }
}

/// What the name of the folder ends in in which a socket is made. Who has the path's lock and who
/// has the turn to have it may be there at once, and don't meet in one folder.
fn ending_of(lock: &PathLock) -> &'static str {
    if lock.is_own() { "new" } else { "nxt" }
}

/// Whether who has such a lock may put a socket at the path: there is nothing, or a socket on which
/// nobody listens but the process that is replaced.
fn check_place<R: Files + Net>(rt: &R, path: &str, lock: &PathLock) -> Result<(), PlaceFault> {
    match fs::symlink_metadata(rt, path) {
        Err(refused) if refused.kind() == ErrorKind::NotFound => Ok(()),
        Err(refused) => Err(PlaceFault::from(refused)),
        Ok(found) if !found.file_type().is_socket() => Err(PlaceFault::NoSocket),
        Ok(_) if lock.is_own() => check_deserted(rt, path),
        Ok(_) => Ok(()),
    }
}

/// Whether nobody listens at a socket.
fn check_deserted<R: Net>(rt: &R, path: &str) -> Result<(), PlaceFault> {
    match UnixStream::connect(rt, path) {
        Ok(_) => Err(PlaceFault::Taken),
        Err(refused) if refused.kind() == ErrorKind::ConnectionRefused => Ok(()),
        Err(refused) => Err(PlaceFault::from(refused)),
    }
}

/// A listener whose socket is made in a fresh folder, with its mode from the first moment that it
/// can be reached.
fn make_inside<R: Files + Net>(
    rt: &R,
    folder: &str,
    inside: &str,
    permissions: u32,
) -> io::Result<(UnixListener, FileId)> {
    make_fresh(rt, folder, inside)?;
    let made = bind_with_mode(rt, inside, permissions);
    if made.is_err() {
        remove_made(rt, folder, inside);
    }
    made
}

/// Makes the folder in which a socket is made. Its name is for who has the path's lock, or for who
/// has the turn to have it. So a folder that is there was left by a run that was killed, and is
/// removed.
fn make_fresh<R: Files>(rt: &R, folder: &str, inside: &str) -> io::Result<()> {
    if fs::symlink_metadata(rt, folder).is_ok_and(|found| found.file_type().is_dir()) {
        let _ = fs::remove_file(rt, inside);
        fs::remove_dir(rt, folder)?;
    }
    DirBuilder::new().mode(0o700).create(rt, folder)
}

fn bind_with_mode<R: Files + Net>(
    rt: &R,
    inside: &str,
    permissions: u32,
) -> io::Result<(UnixListener, FileId)> {
    let listener = UnixListener::bind(rt, inside)?;
    fs::set_permissions(rt, inside, Permissions::from_mode(permissions))?;
    let found = fs::symlink_metadata(rt, inside)?;
    Ok((listener, FileId::of(&found)))
}

/// Removes a socket that was made in a folder, and the folder.
fn remove_made<R: Files>(rt: &R, folder: &str, inside: &str) {
    let _ = fs::remove_file(rt, inside);
    let _ = fs::remove_dir(rt, folder);
}
