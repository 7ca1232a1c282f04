//! A socket that was opened before the program was started, as systemd hands it over
//! (`sd_listen_fds(3)`).

ghost use Rattle.std.specs.Prelude.{◌≡◌, IfOk, Option};
ghost use Rattle.std.specs.Option.{option_copied};
ghost use Rattle.mac_system.specs.Handed.{handing_of};

use crate::NoMemory;
use crate::variable::variable;
use os::FromRawFd;
use std::alloc::{Alloc, Global};
use std::env::Env;
use std::os::unix::net::UnixListener;
use std::process;
use std::process::Process;
use thiserror::Error;

/// The first descriptor that is handed over.
const FIRST_HANDED: i32 = 3;

/// How many connections may wait to be accepted.
const BACKLOG: i32 = 4_096;

/// What the environment says of sockets that were opened for a process.
#[derive(Clone, Copy, Debug, PartialEq, Eq)]
pub enum Handing {
    /// None was opened for it.
    Nothing,
    /// One was.
    One,
    /// More than one, or a number that is none.
    Other,
}

/// Why a socket that was handed over is not served.
#[derive(Clone, Copy, Debug, PartialEq, Eq, Error)]
pub enum HandedFault {
    /// There is not one.
    #[error("LISTEN_FDS is not 1: one socket is served")]
    Other,
    /// It is no socket, or of another kind.
    #[error("descriptor 3, which was handed over, is no Unix socket that listens")]
    NoListener,
    /// Memory ran out.
    #[error("memory ran out")]
    NoMemory,
}

impl From<NoMemory> for HandedFault {
    fn from(_refused: NoMemory) -> HandedFault {
        HandedFault::NoMemory
    }
}

/// What `LISTEN_PID` and `LISTEN_FDS` say to the process of this number. What is meant for another
/// process is nothing to this one.
pub fn read_handing(
    alloc: Global,
    number: u32,
    owner: Option<&str>,
    count: Option<&str>,
) -> Result<Handing, NoMemory>
    ensures { IfOk result (λ said. said ≡
        handing_of number (option_copied owner.entry) (option_copied count.entry)) }
{
    let own = number.to_string(alloc)?;
    if owner != Some(own.as_str()) {
        return Ok(Handing::Nothing);
    }
    if count != Some("1") {
        return Ok(Handing::Other);
    }
    Ok(Handing::One)
}

/// The listening socket that was opened for this process, if one was. It may be taken once.
pub fn handed_listener<R: Env + Alloc<A = Global>>(
    rt: &R,
    process: Process,
) -> Result<Option<UnixListener>, HandedFault> {
    let owner = variable(rt, "LISTEN_PID")?;
    let count = variable(rt, "LISTEN_FDS")?;
    let owner = owner.as_ref().map(|text| text.as_str());
    let count = count.as_ref().map(|text| text.as_str());
    match read_handing(rt.alloc(), process::id(process), owner, count)? {
        Handing::Nothing => Ok(None),
        Handing::Other => Err(HandedFault::Other),
        Handing::One if is_listener(FIRST_HANDED) => Ok(Some(take_listener())),
        Handing::One => Err(HandedFault::NoListener),
    }
}

/// Whether a descriptor is a Unix socket that listens. One that can listen and doesn't, does then.
fn is_listener(descriptor: i32) -> bool {
    let mut address = [0u8; libc::net::_SS_SIZE];
    let mut length = libc::net::_SS_SIZE as u32;
    let named = unsafe { libc::net::getsockname(descriptor, &mut address, &mut length) };
    let is_unix = address[0] == libc::net::AF_UNIX as u8 && address[1] == 0;
    named == 0 && is_unix && libc::net::listen(descriptor, BACKLOG) == 0
}

/// The listener of the first descriptor that was handed over.
fn take_listener() -> UnixListener {
    unsafe { UnixListener::from_raw_fd(FIRST_HANDED) }
}
