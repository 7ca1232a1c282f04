//! A source that waits for the other half of its connection.

ghost use Rattle.std.specs.Prelude.{true, ◌≤◌};

use crate::flags::Flags;
use mac_wire::{DeviceFault, MemSource, Source};

/// How many bytes the first frame has.
pub(crate) const FIRST_FRAME: usize = 52;

/// Gives a piece, and the next once the second flag is set. The first flag tells that the next was
/// asked for.
#[derive(Drop)]
pub(crate) struct Waiting<'a> {
    inner: MemSource,
    flags: &'a Flags,
    has_given: bool,
}

impl<'a> Waiting<'a> {
    /// A source of these bytes, in pieces of so many.
    pub(crate) fn new(bytes: Vec<u8>, piece: usize, flags: &'a Flags) -> Waiting<'a>
        requires { 1 ≤ piece }
    {
        Waiting {
            inner: MemSource::new(bytes, piece, 0),
            flags,
            has_given: false,
        }
    }
}

impl<'a> Source for Waiting<'a> {
    ghost tells = { true };

    ghost taken = { λ s. s.inner.given };

    ghost ended = { λ s. s.inner.has_ended };

    ghost faults = { λ s. s.inner.fault_count };

    fn read(&mut self, buf: &mut [u8]) -> Result<usize, DeviceFault> {
        if self.has_given {
            self.flags.set_first();
            self.flags.await_second();
        }
        self.has_given = true;
        self.inner.read(buf)
    }

    fn faults(&self) -> u64 {
        self.inner.faults()
    }
}
