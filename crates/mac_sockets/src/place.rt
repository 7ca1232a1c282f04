//! Why there is no socket at a path, and sockets that are made right there.
use std::alloc::AllocError;
use std::fs::Files;
use std::io;
use std::io::ErrorKind;
use std::net::Net;
use std::os::unix::net::UnixListener;
use thiserror::Error;

/// The most bytes of a socket's path: its address has room for these and a 0.
pub const PATH_MAX: usize = 107;

/// Why there is no socket at a path.
#[derive(Debug, Drop, Error)]
pub enum PlaceFault {
    /// A process listens at the path.
    #[error("somebody listens there; end that process first, or give another path")]
    Taken,
    /// A daemon has the path's lock: the process of this number.
    #[error("process {0} has it; end that process first, or give another path")]
    Locked(u32),
    /// A daemon has the path's lock, and hasn't written which process it is.
    #[error("another process has it; end that process first, or give another path")]
    LockedUnnamed,
    /// A daemon is about to take the path over.
    #[error("another daemon is taking it over; wait until that is done")]
    Promised,
    /// What stands in the place of the path's lock is none.
    #[error("beside it there is a .lock that is no lock; remove that, or give another path")]
    NoLock,
    /// The file in the place of the path's lock is another user's.
    #[error("beside it there is a .lock of another user; remove that, or give another path")]
    ForeignLock,
    /// Something else than a socket is at the path.
    #[error("there is something that is no socket; remove that, or give another path")]
    NoSocket,
    /// Something is at the path, where nothing may be.
    #[error("there is something already; remove that, or give another path")]
    Exists,
    /// The folder of the path isn't there.
    #[error("there is no such folder; make it first, or give another path")]
    NoFolder,
    /// The user of the process may not do that there.
    #[error("no permission; let this user write the folder, or give another path")]
    Forbidden,
    /// The system takes no path of so many bytes for a socket.
    #[error("the path is too long for a socket; give one of 101 bytes at most")]
    TooLong,
    /// Memory ran out.
    #[error("memory ran out")]
    NoMemory,
    /// The system refused a step.
    #[error("{0}")]
    System(io::Error),
}

impl PlaceFault {
    /// The fault of a path whose lock this process has.
    pub fn of_holder(holder: Option<u32>) -> PlaceFault {
        match holder {
            Some(number) => PlaceFault::Locked(number),
            None => PlaceFault::LockedUnnamed,
        }
    }

    /// Whether another process has the lock.
    pub fn is_locked(&self) -> bool {
        matches!(self, PlaceFault::Locked(_) | PlaceFault::LockedUnnamed)
    }
}

impl From<AllocError> for PlaceFault {
    fn from(_refused: AllocError) -> PlaceFault {
        PlaceFault::NoMemory
    }
}

impl From<io::Error> for PlaceFault {
    fn from(refused: io::Error) -> PlaceFault {
        match refused.kind() {
            ErrorKind::NotFound | ErrorKind::NotADirectory => PlaceFault::NoFolder,
            ErrorKind::PermissionDenied => PlaceFault::Forbidden,
            _ => PlaceFault::System(refused),
        }
    }
}

/// A listener at a path where nothing is yet, with the mode that the process gives its files.
pub fn bind_new<R: Files + Net>(rt: &R, path: &str) -> Result<UnixListener, PlaceFault> {
    check_length(path, PATH_MAX)?;
    match UnixListener::bind(rt, path) {
        Ok(listener) => Ok(listener),
        Err(refused) if refused.kind() == ErrorKind::AddrInUse => Err(PlaceFault::Exists),
        Err(refused) => Err(PlaceFault::from(refused)),
    }
}

/// Whether a socket's address has room for the path.
pub fn check_length(path: &str, most: usize) -> Result<(), PlaceFault> {
    if path.len() > most {
        return Err(PlaceFault::TooLong);
    }
    Ok(())
}
