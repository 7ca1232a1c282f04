//! A sink over memory.

ghost use Rattle.std.specs.Prelude.{◌≡◌, ◌<◌, ◌≤◌, [], length, IfOk, OnErr, true};
ghost use Rattle.mac_wire.specs.Memory.{SinkState, write_result, after_write};

use crate::NoMemory;
use crate::device::{DeviceFault, Sink};
use std::alloc::Global;
use std::marker::Model;

/// A sink that takes bytes into memory, in pieces, and fails at a call that is chosen.
#[derive(Drop)]
pub struct MemSink {
    bytes: Vec<u8>,
    room: usize,
    piece: usize,
    fails: u64,
    faults: u64,
}

impl Model for MemSink {
    ghost use Rattle.std.specs.Prelude.{◌≤◌, ◌+◌, vec_len, vec_capacity};
    ghost use Rattle.mac_wire.specs.Memory.{SinkState};

    ghost Value = { SinkState };

    ghost view = { λ s. record {
      kept = s.bytes.items;
      room = s.room;
      piece = s.piece;
      fails = s.fails;
      fault_count = s.faults;
    } };

    ghost invariant = { λ s. (vec_len s.bytes + s.room ≤ vec_capacity s.bytes) × (1 ≤ s.piece) };
}

impl MemSink {
    /// A sink with room for that many bytes, all of it made here. A call takes at most `piece` of
    /// them; call number `fails` fails, none at 0, and so does each call once no room is left.
    pub fn new(alloc: Global, room: usize, piece: usize, fails: u64) -> Result<MemSink, NoMemory>
        requires { 1 ≤ piece }
        ensures sink { IfOk result (λ s. s ≡ record {
          kept = [];
          room = room;
          piece = piece;
          fails = fails;
          fault_count = 0;
        }) }
        ensures memory { OnErr result (0 < room) }
    {
        Ok(MemSink {
            bytes: Vec::with_capacity(alloc, room)?,
            room,
            piece,
            fails,
            faults: 0,
        })
    }

    /// What was written.
    pub fn bytes(&self) -> &[u8]
        ensures { result.now ≡ self.now.kept }
    {
        self.bytes.as_slice()
    }
}

impl Sink for MemSink {
    ghost tells = { true };

    ghost written = { λ s. s.kept };

    ghost faults = { λ s. s.fault_count };

    fn write(&mut self, buf: &[u8]) -> Result<usize, DeviceFault>
        requires { self.old.fault_count < u64.MAX }
        ensures answer { result ≡ write_result self.old (length buf.now) }
        ensures after { self.new ≡ after_write self.old buf.now }
        ensures some { 1 ≤ self.old.piece }
    {
        let is_failing = self.fails == 1 || self.room == 0;
        self.fails = self.fails.saturating_sub(1);
        if is_failing {
            self.faults += 1;
            return Err(DeviceFault);
        }
        let count = self.piece.min(buf.len()).min(self.room);
        // There is room, so this can't fail.
        self.bytes.extend_from_slice(&buf[..count]).unwrap();
        self.room -= count;
        Ok(count)
    }

    fn faults(&self) -> u64 {
        self.faults
    }
}
