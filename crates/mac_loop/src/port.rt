//! A connection's socket as a loop has it: reads and writes don't wait.

ghost use Rattle.std.specs.Prelude.{◌≡◌, ◌++◌, [], IfOk, length};
ghost use Rattle.mac_plain.specs.Port.{FitsCame, FitsWent};

use crate::transcript::Transcript;
use mac_host::{Exchange, Traffic};
use mac_plain::{Came, Port, Went};
use mac_queue::History;
use mac_sockets::{Fresh, Stream};
use std::alloc::AllocError;
use std::cell::RefCell;
use std::io;
use std::io::ErrorKind;
use std::net::Shutdown;

/// A socket that a loop reads and writes.
#[derive(Drop)]
pub struct SocketPort {
    stream: Stream,
    // Whether the last read gave bytes.
    has_read: bool,
    // Whether the last read was put off, since too many requests wait for their replies.
    is_put_off: bool,
    traffic: Traffic,
    // All bytes that reads gave, and that writes took. For contracts: they take no room.
    pub(crate) came: History<u8>,
    pub(crate) went: History<u8>,
    // What comes and goes on it, where that is logged: apart, since most have none.
    transcript: Option<Box<RefCell<Transcript>>>,
}

impl SocketPort {
    /// A port at a stream on which nothing has come or gone. Its reads and writes wait no more, and
    /// what comes and goes is noted in a transcript where there is one.
    pub(crate) fn new(stream: Fresh, transcript: Option<Transcript>) -> io::Result<SocketPort>
        ensures { IfOk result (λ port. (port.came ≡ []) × (port.went ≡ [])) }
    {
        let stream = stream.into_stream();
        stream.hurry()?;
        Ok(SocketPort {
            stream,
            has_read: false,
            is_put_off: false,
            traffic: Traffic::NONE,
            came: History::new(),
            went: History::new(),
            transcript: transcript.and_then(|transcript| transcript.apart()),
        })
    }

    /// The next request whose reply has gone out whole, where that is logged; or that there was no
    /// memory to note one.
    pub fn next_exchange(&self) -> Option<Result<Exchange, AllocError>> {
        let transcript = self.transcript.as_ref()?;
        let mut transcript = transcript.try_borrow_mut().ok()?;
        transcript.next_exchange()
    }

    /// Whether its requests are noted, and as many wait for their replies as may be: then it isn't
    /// read.
    pub fn is_full(&self) -> bool {
        let Some(transcript) = &self.transcript else {
            return false;
        };
        match transcript.try_borrow() {
            Ok(transcript) => transcript.is_full(),
            Err(_) => false,
        }
    }

    /// How many bytes of memory its notes hold at most, whose client holds so many.
    pub fn held(&self, client: usize) -> usize {
        let Some(transcript) = &self.transcript else {
            return 0;
        };
        match transcript.try_borrow() {
            Ok(transcript) => transcript.held().saturating_add(client),
            Err(_) => client,
        }
    }

    /// Whether the last read was put off, since it was full.
    pub fn is_put_off(&self) -> bool {
        self.is_put_off
    }

    /// Takes note of bytes that came, or went.
    fn note(&self, came: &[u8], went: &[u8]) {
        let Some(transcript) = &self.transcript else {
            return;
        };
        if let Ok(mut transcript) = transcript.try_borrow_mut() {
            transcript.hear(came);
            transcript.speak(went);
        }
    }

    /// Whether the last read gave bytes.
    pub fn has_read(&self) -> bool {
        self.has_read
    }

    /// What has come and gone through this port.
    pub fn traffic(&self) -> Traffic {
        self.traffic
    }

    /// Takes nothing more from the peer: behind what has come its stream ends.
    pub fn end_reading(&self) {
        self.stream.shut(Shutdown::Read);
    }

    /// Writes nothing more: the peer reads an end behind what was written.
    pub fn end_writing(&self) {
        self.stream.shut(Shutdown::Write);
    }

    /// Its stream.
    pub fn stream(&self) -> &Stream {
        &self.stream
    }
}

impl Port for SocketPort {
    ghost use Rattle.std.specs.Prelude.{true};

    ghost tells = { true };

    ghost taken = { λ port. port.came };

    ghost written = { λ port. port.went };

    fn read(&mut self, buf: &mut [u8]) -> Came {
        self.is_put_off = self.is_full();
        if self.is_put_off {
            self.has_read = false;
            return Came::Later;
        }
        let came = read(&self.stream, buf);
        self.has_read = matches!(came, Came::Bytes(_));
        if let Came::Bytes(count) = came {
            self.traffic.came = self.traffic.came.saturating_add(count as u64);
            let bytes = &buf[..count];
            add_all(&mut self.came, bytes);
            self.note(bytes, &[]);
        }
        came
    }

    fn write(&mut self, buf: &[u8]) -> Went {
        let went = write(&self.stream, buf);
        if let Went::Bytes(count) = went {
            self.traffic.went = self.traffic.went.saturating_add(count as u64);
            let bytes = &buf[..count];
            add_all(&mut self.went, bytes);
            self.note(&[], bytes);
        }
        went
    }
}

/// So many entries more, in their order.
fn add_all(history: &mut History<u8>, bytes: &[u8])
    ensures { history.new ≡ history.old ++ bytes.now }
{
    for byte in bytes {
        history.add(byte);
    }
}

/// What a read comes to.
fn read(stream: &Stream, buf: &mut [u8]) -> Came
    ensures { FitsCame result (length buf.new) }
{
    match stream.read_past_signals(buf) {
        Ok(0) => Came::End,
        Ok(count) => Came::Bytes(count),
        Err(fault) if fault.kind() == ErrorKind::WouldBlock => Came::Later,
        Err(_) => Came::Fault,
    }
}

/// What a write comes to.
fn write(stream: &Stream, buf: &[u8]) -> Went
    ensures { FitsWent result (length buf.now) }
{
    match stream.write_past_signals(buf) {
        Ok(count) => Went::Bytes(count),
        Err(fault) if fault.kind() == ErrorKind::WouldBlock => Went::Later,
        Err(_) => Went::Fault,
    }
}
