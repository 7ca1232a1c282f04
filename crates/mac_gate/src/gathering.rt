//! What a peer sends in small pieces, gathered until it is looked at.

ghost use Rattle.std.specs.Prelude.{◌≡◌, ◌⊎◌, [], ◌<◌, ◌≤◌, ◌+◌, ◌++◌, false, length, take, true};
ghost use Rattle.std.specs.Prelude.{IfErr, IfOk, OnErr, OnOk};
ghost use Rattle.std.specs.Io.{ReadsAtMost};
ghost use Rattle.std.specs.IoError.{error_kind};
ghost use Rattle.mac_gate.specs.Pace.{is_due};

use crate::pace::{LOOK_MICROS, Pace};
use mac_http::CONFIG;
use std::alloc::Global;
use std::io;
use std::io::ErrorKind;

/// Bytes that came and weren't looked at yet, and the pace of looks.
#[derive(Drop)]
pub struct Gathered {
    alloc: Global,
    bytes: Vec<u8>,
    pace: Pace,
}

impl Gathered {
    /// None. It takes no memory.
    pub fn new(alloc: Global) -> Gathered
        ensures { result.bytes.items ≡ [] }
    {
        Gathered {
            alloc,
            bytes: Vec::new(alloc),
            pace: Pace::new(),
        }
    }

    /// A response was sent, and another request begins.
    pub fn begin(&mut self)
        ensures { self.new.bytes ≡ self.old.bytes }
    {
        self.pace = Pace::new();
    }

    /// In how many microseconds it is seen whether what is gathered is looked at, where something
    /// is.
    pub fn due_in(&self) -> Option<u64> {
        if self.bytes.is_empty() {
            None
        } else {
            Some(LOOK_MICROS)
        }
    }

    /// Takes in what a read put at the front of the buffer. How many bytes are looked at now, which
    /// stand there then; else they are gathered, and it is as if none had come. A read of none is
    /// the end of the input, and is told as that behind what was gathered.
    pub fn hear(&mut self, buf: &mut [u8], count: usize, now: u64) -> io::Result<usize>
        requires { count ≤ length buf.old }
        ensures bound { ReadsAtMost result buf.new }
        ensures kept { IfOk result (λ told. take told buf.new ++ self.new.bytes.items
            ≡ self.old.bytes.items ++ take count buf.old) }
        ensures due { OnOk result (0 < count
            → is_due self.old.pace (length self.old.bytes.items + count) now ≡ true) }
        ensures put_off { IfErr result (λ fault. error_kind fault ≡ ErrorKind.WouldBlock
            → (is_due self.old.pace (length self.old.bytes.items + count) now ≡ false)
            × (self.new.bytes.items ≡ self.old.bytes.items ++ take count buf.old)) }
    {
        if self.bytes.is_empty() && (count == 0 || self.pace.is_due(count as u64, now)) {
            self.pace.look(count as u64, now);
            return Ok(count);
        }
        self.bytes.extend_from_slice(&buf[..count])?;
        if count > 0 && !self.pace.is_due(self.bytes.len() as u64, now) {
            return Err(io::Error::from(ErrorKind::WouldBlock));
        }
        self.give(buf, now)
    }

    /// What is looked at where a read gave nothing but this fault: what was gathered, if it is time
    /// for that.
    pub fn resume(&mut self, buf: &mut [u8], fault: io::Error, now: u64) -> io::Result<usize>
        ensures bound { ReadsAtMost result buf.new }
        ensures kept { IfOk result (λ told. take told buf.new ++ self.new.bytes.items
            ≡ self.old.bytes.items) }
        ensures due { OnOk result
            (is_due self.old.pace (length self.old.bytes.items) now ≡ true) }
        ensures err { OnErr result (self.new ≡ self.old) }
        ensures put_off { IfErr result (λ told. (error_kind told ≡ ErrorKind.OutOfMemory)
            ⊎ ((length self.old.bytes.items ≡ 0)
            ⊎ (is_due self.old.pace (length self.old.bytes.items) now ≡ false))) }
    {
        if self.bytes.is_empty() || !self.pace.is_due(self.bytes.len() as u64, now) {
            return Err(fault);
        }
        self.give(buf, now)
    }

    /// Puts what was gathered into the buffer, as much as fits and a connection has room for at any
    /// time.
    fn give(&mut self, buf: &mut [u8], now: u64) -> io::Result<usize>
        ensures bound { ReadsAtMost result buf.new }
        ensures kept { IfOk result (λ told. take told buf.new ++ self.new.bytes.items
            ≡ self.old.bytes.items) }
        ensures err { OnErr result (self.new ≡ self.old) }
        ensures memory { IfErr result (λ fault. error_kind fault ≡ ErrorKind.OutOfMemory) }
    {
        let count = self.bytes.len().min(buf.len()).min(CONFIG.read_size);
        let rest = Vec::from_slice(self.alloc, &self.bytes[count..])?;
        buf[..count].copy_from_slice(&self.bytes[..count]);
        self.bytes = rest;
        self.pace.look(count as u64, now);
        Ok(count)
    }
}
