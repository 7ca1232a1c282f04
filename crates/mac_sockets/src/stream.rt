//! A connection's stream, over a Unix socket or over TCP.

ghost use Rattle.std.specs.Io.{ReadsAtMost, WritesAtMost};

use mio::unix::SourceFd;
use mio::{Interest, Registry, Token};
use std::io;
use std::io::{ErrorKind, Read, Write};
use std::net::{Shutdown, TcpStream};
use std::os::fd::AsRawFd;
use std::os::unix::net::UnixStream;

/// A stream whose reads and writes wait, or don't, as it is told.
#[derive(Drop)]
pub enum Stream {
    /// Over a Unix socket.
    Unix(UnixStream),
    /// Over TCP.
    Tcp(TcpStream),
}

/// A stream that was accepted just now: nothing was read of it, and nothing written to it. Only
/// a door makes one.
#[derive(Drop)]
pub struct Fresh {
    stream: Stream,
}

impl Fresh {
    pub(crate) fn new(stream: Stream) -> Fresh {
        Fresh { stream }
    }

    /// The stream, which is read and written from now on.
    pub fn into_stream(self) -> Stream {
        let Fresh { stream } = self;
        stream
    }
}

impl Stream {
    /// Has reads and writes wait for nothing, and each write go out at once, whatever it holds.
    pub fn hurry(&self) -> io::Result<()> {
        match self {
            Stream::Unix(stream) => stream.set_nonblocking(true),
            Stream::Tcp(stream) => {
                stream.set_nonblocking(true)?;
                stream.set_nodelay(true)
            }
        }
    }

    /// The number that the system knows it by.
    fn descriptor(&self) -> i32 {
        match self {
            Stream::Unix(stream) => stream.as_raw_fd(),
            Stream::Tcp(stream) => stream.as_raw_fd(),
        }
    }

    /// Has a poll tell of what comes, under this token.
    pub fn join(&self, registry: &Registry, token: Token) -> io::Result<()> {
        registry.register(&mut SourceFd(&self.descriptor()), token, Interest::READABLE)
    }

    /// Has a poll tell of room to write too, or no longer.
    pub fn await_room(&self, registry: &Registry, token: Token, awaits: bool) -> io::Result<()> {
        let interest = if awaits {
            Interest::READABLE | Interest::WRITABLE
        } else {
            Interest::READABLE
        };
        registry.reregister(&mut SourceFd(&self.descriptor()), token, interest)
    }

    /// Has a poll tell of nothing more.
    pub fn leave(&self, registry: &Registry) -> io::Result<()> {
        registry.deregister(&mut SourceFd(&self.descriptor()))
    }

    /// Shuts a half of the stream, or both.
    pub fn shut(&self, how: Shutdown) {
        let _ = match self {
            Stream::Unix(stream) => stream.shutdown(how),
            Stream::Tcp(stream) => stream.shutdown(how),
        };
    }

    /// Reads, and reads again where a signal broke that off.
    pub fn read_past_signals(&self, buf: &mut [u8]) -> io::Result<usize>
        ensures { ReadsAtMost result buf.new }
    {
        for _ in 0..u64::MAX {
            match self.read_once(buf) {
                Err(fault) if fault.kind() == ErrorKind::Interrupted => {}
                outcome => return outcome,
            }
        }
        Err(ErrorKind::Interrupted.into())
    }

    /// Writes, and writes again where a signal broke that off.
    pub fn write_past_signals(&self, buf: &[u8]) -> io::Result<usize>
        ensures { WritesAtMost result buf.now }
    {
        for _ in 0..u64::MAX {
            match self.write_once(buf) {
                Err(fault) if fault.kind() == ErrorKind::Interrupted => {}
                outcome => return outcome,
            }
        }
        Err(ErrorKind::Interrupted.into())
    }

    fn read_once(&self, buf: &mut [u8]) -> io::Result<usize>
        ensures { ReadsAtMost result buf.new }
    {
        match self {
            Stream::Unix(stream) => {
                let mut reader = stream;
                reader.read(buf)
            }
            Stream::Tcp(stream) => {
                let mut reader = stream;
                reader.read(buf)
            }
        }
    }

    fn write_once(&self, buf: &[u8]) -> io::Result<usize>
        ensures { WritesAtMost result buf.now }
    {
        match self {
            Stream::Unix(stream) => {
                let mut writer = stream;
                writer.write(buf)
            }
            Stream::Tcp(stream) => {
                let mut writer = stream;
                writer.write(buf)
            }
        }
    }
}

impl Read for &Stream {
    fn read(&mut self, buf: &mut [u8]) -> io::Result<usize> {
        self.read_past_signals(buf)
    }
}

impl Write for &Stream {
    fn write(&mut self, buf: &[u8]) -> io::Result<usize> {
        self.write_past_signals(buf)
    }

    fn flush(&mut self) -> io::Result<()> {
        Ok(())
    }
}
