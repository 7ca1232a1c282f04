//! A source over any reader.

ghost use Rattle.std.specs.Prelude.{◌≡◌, ◌<◌, ◌≤◌, ◌⊎◌, [], length, IfOk, IsTrue, true, false};
ghost use Rattle.std.specs.Io.KnownBytes.{ReadConsumes};
ghost use Rattle.mac_wire.specs.Device.{CountsFault, PassesFront};
ghost use Rattle.mac_wire.specs.Streams.{reader_of};

use crate::device::{DeviceFault, Source};
use std::io::{ErrorKind, Read};

/// A source over a reader, whose first read of nothing into a buffer with room is the end. A read
/// that a signal broke off is made again. What the bytes were, it doesn't tell.
#[derive(Drop)]
pub struct ReaderSource<R> {
    reader: R,
    has_ended: bool,
    faults: u64,
}

impl<R: Read> ReaderSource<R> {
    /// A source over a reader.
    pub fn new(reader: R) -> ReaderSource<R>
        ensures reader { reader_of result ≡ reader }
        ensures begins { result.has_ended ≡ false }
        ensures faults { result.faults ≡ 0 }
    {
        ReaderSource {
            reader,
            has_ended: false,
            faults: 0,
        }
    }
}

impl<R: Read + Send> Source for ReaderSource<R> {
    ghost tells = { false };

    ghost taken = { λ _. [] };

    ghost ended = { λ s. s.has_ended };

    ghost faults = { λ s. s.faults };

    fn read(&mut self, buf: &mut [u8]) -> Result<usize, DeviceFault>
        requires { self.old.faults < u64.MAX }
        // Until the end, the bytes are the reader's.
        ensures reader { self.old.has_ended ≡ false
            → ReadConsumes (R.remaining (reader_of self.old)) (R.remaining (reader_of self.new))
            result buf.new }

        // After it, the reader and the buffer are left as they were.
        ensures ended { self.old.has_ended ≡ true
            → (result ≡ Ok 0) × (self.new ≡ self.old) × (buf.new ≡ buf.old) }

        ensures bound { IfOk result (λ n. n ≤ length buf.new) }
        ensures faults { CountsFault result self.old.faults self.new.faults }
        ensures end { IfOk result (λ n. n ≡ 0 → 0 < length buf.new → IsTrue self.new.has_ended) }
        ensures end_only { IsTrue self.new.has_ended → IsTrue self.old.has_ended
            ⊎ ((result ≡ Ok 0) × (0 < length buf.new)) }
        ensures end_stays { IsTrue self.old.has_ended → IsTrue self.new.has_ended }
        ensures end_is_last { IsTrue self.old.has_ended → IfOk result (λ n. n ≡ 0) }
    {
        if self.has_ended {
            return Ok(0);
        }
        let Ok(count) = read_past_signals(&mut self.reader, buf) else {
            self.faults += 1;
            return Err(DeviceFault);
        };
        if count == 0 && !buf.is_empty() {
            self.has_ended = true;
        }
        Ok(count)
    }

    fn faults(&self) -> u64 {
        self.faults
    }
}

/// Reads, and reads again where a signal broke that off.
fn read_past_signals<R: Read>(reader: &mut R, buf: &mut [u8]) -> Result<usize, DeviceFault>
    ensures bytes { ReadConsumes (R.remaining reader.old) (R.remaining reader.new) result buf.new }
    ensures bound { IfOk result (λ n. n ≤ length buf.new) }
{
    for _ in 0..u64::MAX {
        match reader.read(buf) {
            Ok(count) => return Ok(count),
            Err(fault) if fault.kind() == ErrorKind::Interrupted => {}
            Err(_) => return Err(DeviceFault),
        }
    }
    Err(DeviceFault)
}
