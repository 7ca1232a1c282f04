//! Sockets that listen.

ghost use Rattle.std.specs.Prelude.{◌≡◌, false, IfOk};
ghost use Rattle.mac_sockets.specs.Entrance.{gift_of, shared_of};

use crate::stream::{Fresh, Stream};
use std::io;
use std::io::ErrorKind;
use std::net::TcpListener;
use std::os::fd::AsRawFd;
use std::os::unix::net::UnixListener;
use std::sync::Wait;

/// What listens.
#[derive(Drop)]
enum Listener {
    Unix(UnixListener),
    Tcp(TcpListener),
}

/// A socket that listens and is never waited for, with what its connections are given.
#[derive(Drop)]
pub struct Door<G> {
    listener: Listener,
    gift: G,
    // Whether another process has it too, and goes on with those that wait there.
    is_shared: bool,
}

impl<G: Drop> Door<G> {
    /// The door of a Unix socket, which may be shared with another process.
    pub fn unix(listener: UnixListener, gift: G, is_shared: bool) -> io::Result<Door<G>>
        ensures gift { IfOk result (λ door. gift_of door ≡ gift) }
        ensures shared { IfOk result (λ door. shared_of door ≡ is_shared) }
    {
        listener.set_nonblocking(true)?;
        Ok(Door {
            listener: Listener::Unix(listener),
            gift,
            is_shared,
        })
    }

    /// The door of a TCP socket that no other process has.
    pub fn tcp(listener: TcpListener, gift: G) -> io::Result<Door<G>>
        ensures gift { IfOk result (λ door. gift_of door ≡ gift) }
        ensures shared { IfOk result (λ door. shared_of door ≡ false) }
    {
        listener.set_nonblocking(true)?;
        Ok(Door {
            listener: Listener::Tcp(listener),
            gift,
            is_shared: false,
        })
    }

    /// What its connections are given.
    pub fn gift(&self) -> &G
        ensures { result.now ≡ gift_of self.now }
    {
        &self.gift
    }

    /// Whether another process has it too.
    pub fn is_shared(&self) -> bool
        ensures { result ≡ shared_of self.now }
    {
        self.is_shared
    }

    /// The number that the system knows it by.
    pub fn descriptor(&self) -> i32 {
        match &self.listener {
            Listener::Unix(listener) => listener.as_raw_fd(),
            Listener::Tcp(listener) => listener.as_raw_fd(),
        }
    }

    /// The next connection that waits here, or why the system gives none.
    pub fn accept<R: Wait>(&self, rt: &R) -> Option<io::Result<Fresh>> {
        for _ in rt.forever() {
            match self.listener.accept() {
                Ok(stream) => return Some(Ok(stream)),
                Err(fault) if fault.kind() == ErrorKind::WouldBlock => return None,
                Err(fault) if fault.kind() == ErrorKind::Interrupted => {}
                Err(fault) => return Some(Err(fault)),
            }
        }
        unreachable!()
    }
}

impl Listener {
    fn accept(&self) -> io::Result<Fresh> {
        match self {
            Listener::Unix(listener) => {
                let (stream, _) = listener.accept()?;
                Ok(Fresh::new(Stream::Unix(stream)))
            }
            Listener::Tcp(listener) => {
                let (stream, _) = listener.accept()?;
                Ok(Fresh::new(Stream::Tcp(stream)))
            }
        }
    }
}
