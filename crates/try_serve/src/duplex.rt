//! A connection that reads and writes at once: its peer sends the second frame only once it has the
//! first reply.

ghost use Rattle.std.specs.Prelude.{true};

use crate::fault::RunFault;
use crate::flags::Flags;
use crate::report::met_text;
use crate::serving::{ROOM, by_a_pool};
use crate::streams::{FIRST_REPLY, TWO_FRAMES};
use crate::waiting::{FIRST_FRAME, Waiting};
use mac_wire::{DeviceFault, MemSink, Sink};
use std::alloc::Global;
use std::sync::Wait;
use std::thread::Threads;

/// Tells by the second flag that the first reply was written.
#[derive(Drop)]
struct Telling<'a> {
    inner: MemSink,
    flags: &'a Flags,
}

impl<'a> Sink for Telling<'a> {
    ghost tells = { true };

    ghost written = { λ s. s.inner.kept };

    ghost faults = { λ s. s.inner.fault_count };

    fn write(&mut self, buf: &[u8]) -> Result<usize, DeviceFault> {
        let count = self.inner.write(buf);
        if self.inner.bytes().len() >= FIRST_REPLY {
            self.flags.set_second();
        }
        count
    }

    fn faults(&self) -> u64 {
        self.inner.faults()
    }
}

/// What comes of two frames whose second waits for the first's reply.
pub(crate) fn duplex_told<R>(rt: &R, alloc: Global) -> Result<String, RunFault>
where
    R: Threads + Wait + Sync + Copy + Send + 'static,
{
    let flags = Flags::new();
    let (mut source, mut sink) = ends_of(alloc, &flags)?;
    let (report, tally) = by_a_pool(rt, alloc, 2, &mut source, &mut sink)?;
    met_text(alloc, &flags, tally, report, sink.inner.bytes())
}

/// The devices, which wait for one another by flags.
fn ends_of<'a>(alloc: Global, flags: &'a Flags) -> Result<(Waiting<'a>, Telling<'a>), RunFault> {
    let stream = Vec::from_slice(alloc, TWO_FRAMES)?;
    let sink = MemSink::new(alloc, ROOM, ROOM, 0)?;
    let waiting = Waiting::new(stream, FIRST_FRAME, flags);
    let telling = Telling { inner: sink, flags };
    Ok((waiting, telling))
}
