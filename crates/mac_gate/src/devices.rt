//! What is written to a stream in a turn.

ghost use Rattle.std.specs.Prelude.{◌≡◌};

use crate::flow::Trace;
use mac_sockets::Stream;
use std::io;
use std::io::Write;

/// What is written to a stream.
#[derive(Drop)]
pub struct Spoken<'a> {
    pub stream: &'a Stream,
    /// What writes took, from the connection's begin on.
    pub went: Trace,
    /// How many bytes were to be written.
    pub waited: usize,
    /// Whether bytes went.
    pub has_gone: bool,
    /// Whether there may be room for more.
    pub has_room: bool,
}

impl<'a> Spoken<'a> {
    /// A turn's writer, behind these bytes, where there may be room, or not.
    pub fn new(stream: &'a Stream, went: Trace, has_room: bool) -> Spoken<'a>
        ensures { result.went ≡ went }
    {
        Spoken {
            stream,
            went,
            waited: 0,
            has_gone: false,
            has_room,
        }
    }
}

impl<'a> Write for Spoken<'a> {
    ghost use Rattle.std.specs.Prelude.{Some};

    ghost contents = { λ spoken. Some spoken.went.bytes };

    fn write(&mut self, buf: &[u8]) -> io::Result<usize> {
        self.waited = buf.len();
        let outcome = self.stream.write_past_signals(buf);
        match &outcome {
            Ok(count) => {
                self.has_gone = *count > 0;
                self.has_room = *count == buf.len();
                self.went.add_all(&buf[..*count]);
            }
            Err(_) => self.has_room = false,
        }
        outcome
    }

    fn flush(&mut self) -> io::Result<()> {
        Ok(())
    }
}
