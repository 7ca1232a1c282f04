//! A sink over any writer.

ghost use Rattle.std.specs.Prelude.{◌≡◌, ◌<◌, ◌≤◌, [], length, IfOk, IsTrue, false};
ghost use Rattle.std.specs.Io.KnownBytes.{WriteAppends};
ghost use Rattle.mac_wire.specs.Device.{CountsFault};
ghost use Rattle.mac_wire.specs.Streams.{writer_of};

use crate::device::{DeviceFault, Sink};
use std::io::{ErrorKind, Write};

/// A sink over a writer. A writer that takes none of some bytes has failed; a write that a signal
/// broke off is made again. What the bytes were, it doesn't tell.
#[derive(Drop)]
pub struct WriterSink<W> {
    writer: W,
    faults: u64,
}

impl<W: Write> WriterSink<W> {
    /// A sink over a writer.
    pub fn new(writer: W) -> WriterSink<W>
        ensures writer { writer_of result ≡ writer }
        ensures faults { result.faults ≡ 0 }
    {
        WriterSink { writer, faults: 0 }
    }
}

impl<W: Write + Send> Sink for WriterSink<W> {
    ghost tells = { false };

    ghost written = { λ _. [] };

    ghost faults = { λ s. s.faults };

    fn write(&mut self, buf: &[u8]) -> Result<usize, DeviceFault>
        requires { self.old.faults < u64.MAX }
        // The bytes go to the writer.
        ensures writer { WriteAppends (W.contents (writer_of self.old))
            (W.contents (writer_of self.new)) result buf.now }

        // Nothing is taken of nothing, and the writer isn't asked.
        ensures nothing { buf.now ≡ [] → (result ≡ Ok 0) × (self.new ≡ self.old) }

        ensures bound { IfOk result (λ n. n ≤ length buf.now) }
        ensures some { IfOk result (λ n. 0 < length buf.now → 0 < n) }
        ensures faults { CountsFault result self.old.faults self.new.faults }
    {
        if buf.is_empty() {
            return Ok(0);
        }
        match write_past_signals(&mut self.writer, buf) {
            Ok(count) if count > 0 => Ok(count),
            Ok(_) | Err(_) => {
                self.faults += 1;
                Err(DeviceFault)
            }
        }
    }

    fn faults(&self) -> u64 {
        self.faults
    }
}

/// Writes, and writes again where a signal broke that off.
fn write_past_signals<W: Write>(writer: &mut W, buf: &[u8]) -> Result<usize, DeviceFault>
    ensures bytes { WriteAppends (W.contents writer.old) (W.contents writer.new) result buf.now }
    ensures bound { IfOk result (λ n. n ≤ length buf.now) }
{
    for _ in 0..u64::MAX {
        match writer.write(buf) {
            Ok(count) => return Ok(count),
            Err(fault) if fault.kind() == ErrorKind::Interrupted => {}
            Err(_) => return Err(DeviceFault),
        }
    }
    Err(DeviceFault)
}
