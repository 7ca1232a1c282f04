//! A word to the service manager (`sd_notify(3)`).

ghost use Rattle.std.specs.Prelude.{◌≡◌, ◌≢◌, ◌≤◌, IfErr, MatchOption};
ghost use Rattle.std.specs.IoError.{error_kind};
ghost use Rattle.mac_system.specs.Notify.{IsAddress, IsNotifyPath, state_text};
ghost use Rattle.mac_system.specs.declared.notify.TheConstants.{NOTIFY_PATH_MAX};

use crate::variable::variable;
use std::alloc::{Alloc, Global};
use std::env::Env;
use std::io;
use std::io::{Error, ErrorKind};

/// The greatest number of bytes in the path of a socket: a `sockaddr_un` has room for these and a
/// 0.
pub const NOTIFY_PATH_MAX: usize = 107;

/// What is told.
#[derive(Clone, Copy, Debug, PartialEq, Eq)]
pub enum State {
    /// Clients can connect.
    Ready,
    /// The daemon was told to end.
    Stopping,
}

impl State {
    /// What the service manager reads.
    pub fn text(self) -> &'static str
        ensures { result.now ≡ state_text self }
    {
        match self {
            State::Ready => "READY=1",
            State::Stopping => "STOPPING=1",
        }
    }
}

/// The address of a service manager's socket.
#[derive(Clone, Copy)]
pub struct NotifySocket {
    address: [u8; libc::net::_SS_SIZE],
    length: u32,
    ghost fits: { length ≤ 128 },
}

impl NotifySocket {
    /// The socket that the environment names, if one waits to be told.
    pub fn of_environment<R: Env + Alloc<A = Global>>(rt: &R) -> Option<NotifySocket> {
        let path = variable(rt, "NOTIFY_SOCKET").ok()??;
        NotifySocket::of_path(path.as_bytes())
    }

    /// The address of a path, or of an abstract name, which is written with `@` in front.
    pub fn of_path(path: &[u8]) -> Option<NotifySocket>
        ensures { MatchOption result (¬ IsNotifyPath path.now)
            (λ socket. IsNotifyPath path.now × IsAddress path.now socket.address socket.length) }
    {
        if path.is_empty() || path.len() > NOTIFY_PATH_MAX {
            return None;
        }
        let first = match path[0] {
            b'@' => 0,
            b'/' => b'/',
            _ => return None,
        };
        let mut address = [0u8; libc::net::_SS_SIZE];
        address[0] = libc::net::AF_UNIX as u8;
        address[2] = first;
        for index in 1..path.len() {
            address[index + 2] = path[index];
        }
        Some(NotifySocket {
            address,
            length: path.len() as u32 + 2,
        })
    }

    /// Tells a state, or why it can't be told. A call that was broken off is made again. Nobody
    /// says whether it was read.
    pub fn tell(&self, state: State) -> io::Result<()>
        ensures retried { IfErr result (λ fault. error_kind fault ≢ ErrorKind.Interrupted) }
    {
        for _ in 0..u64::MAX {
            match self.send(state) {
                Ok(()) => return Ok(()),
                Err(fault) if fault.kind() == ErrorKind::Interrupted => {}
                Err(fault) => return Err(fault),
            }
        }
        Err(ErrorKind::TimedOut.into())
    }

    /// Sends a state once.
    fn send(&self, state: State) -> io::Result<()> {
        let kind = libc::net::SOCK_DGRAM | libc::net::SOCK_CLOEXEC;
        let descriptor = unsafe { libc::net::socket(libc::net::AF_UNIX, kind, 0) };
        if descriptor < 0 {
            return Err(Error::from_raw_os_error(os::errno()));
        }
        let flags = libc::net::MSG_NOSIGNAL | libc::net::MSG_DONTWAIT;
        let text = state.text().as_bytes();
        let sent = unsafe {
            libc::net::sendto(descriptor, text, flags, &self.address, self.length)
        };
        let code = os::errno();
        libc::close(descriptor);
        if sent < 0 {
            return Err(Error::from_raw_os_error(code));
        }
        Ok(())
    }
}
