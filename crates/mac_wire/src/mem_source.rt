//! A source over memory.

ghost use Rattle.std.specs.Prelude.{◌≡◌, ◌<◌, ◌≤◌, [], length, take, drop, IfOk, OnErr, true, false};
ghost use Rattle.mac_wire.specs.Memory.{SourceState, read_result, after_read};

use crate::device::{DeviceFault, Source};
use std::marker::Model;

/// A source that gives bytes out of memory, in pieces, and fails at a call that is chosen.
#[derive(Drop)]
pub struct MemSource {
    bytes: Vec<u8>,
    at: usize,
    piece: usize,
    fails: u64,
    has_ended: bool,
    faults: u64,
}

impl Model for MemSource {
    ghost use Rattle.std.specs.Prelude.{◌≡◌, ◌≤◌, take, drop, length, true};
    ghost use Rattle.mac_wire.specs.Memory.{SourceState};

    ghost Value = { SourceState };

    ghost view = { λ s. record {
      given = take s.at s.bytes.items;
      left = drop s.at s.bytes.items;
      piece = s.piece;
      fails = s.fails;
      has_ended = s.has_ended;
      fault_count = s.faults;
    } };

    ghost invariant = { λ s. (s.at ≤ length s.bytes.items) × (1 ≤ s.piece)
        × (s.has_ended ≡ true → s.at ≡ length s.bytes.items) };
}

impl MemSource {
    /// A source of these bytes. A call gives at most `piece` of them; call number `fails` fails,
    /// none at 0.
    pub fn new(bytes: Vec<u8>, piece: usize, fails: u64) -> MemSource
        requires { 1 ≤ piece }
        ensures { result ≡ record {
          given = [];
          left = bytes.items;
          piece = piece;
          fails = fails;
          has_ended = false;
          fault_count = 0;
        } }
    {
        MemSource {
            bytes,
            at: 0,
            piece,
            fails,
            has_ended: false,
            faults: 0,
        }
    }
}

/// Copies bytes to the front of others.
fn copy_front(to: &mut [u8], from: &[u8])
    requires { length from.now ≤ length to.old }
    ensures front { take (length from.now) to.new ≡ from.now }
    ensures rest { drop (length from.now) to.new ≡ drop (length from.now) to.old }
{
    to[..from.len()].copy_from_slice(from);
}

impl Source for MemSource {
    ghost tells = { true };

    ghost taken = { λ s. s.given };

    ghost ended = { λ s. s.has_ended };

    ghost faults = { λ s. s.fault_count };

    fn read(&mut self, buf: &mut [u8]) -> Result<usize, DeviceFault>
        requires { self.old.fault_count < u64.MAX }
        ensures answer { result ≡ read_result self.old (length buf.new) }
        ensures bytes { IfOk result (λ n. take n buf.new ≡ take n self.old.left) }
        ensures rest { IfOk result (λ n. drop n buf.new ≡ drop n buf.old) }
        ensures untouched { OnErr result (buf.new ≡ buf.old) }
        ensures after { self.new ≡ after_read self.old (length buf.new) }
        // Once the end was answered, nothing is left.
        ensures end_is_last { self.old.has_ended ≡ true → self.old.left ≡ [] }
    {
        if self.fails == 1 {
            self.fails = 0;
            self.faults += 1;
            return Err(DeviceFault);
        }
        self.fails = self.fails.saturating_sub(1);
        let count = self.piece.min(buf.len()).min(self.bytes.len() - self.at);
        copy_front(buf, &self.bytes[self.at..self.at + count]);
        self.at += count;
        if count == 0 && !buf.is_empty() {
            self.has_ended = true;
        }
        Ok(count)
    }

    fn faults(&self) -> u64 {
        self.faults
    }
}
