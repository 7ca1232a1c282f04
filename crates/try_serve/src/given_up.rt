//! A connection whose sink fails: its source waits for the peer until the sink is told that nothing
//! more comes.

ghost use Rattle.std.specs.Prelude.{true};

use crate::fault::RunFault;
use crate::flags::Flags;
use crate::report::met_text;
use crate::serving::{ROOM, by_a_pool};
use crate::streams::TWO_FRAMES;
use crate::waiting::{FIRST_FRAME, Waiting};
use mac_wire::{DeviceFault, MemSink, Sink};
use std::alloc::Global;
use std::sync::Wait;
use std::thread::Threads;

/// Fails at its first call, once the source was asked for more. The second flag tells that nothing
/// more comes.
#[derive(Drop)]
struct Failing<'a> {
    inner: MemSink,
    flags: &'a Flags,
}

impl<'a> Sink for Failing<'a> {
    ghost tells = { true };

    ghost written = { λ s. s.inner.kept };

    ghost faults = { λ s. s.inner.fault_count };

    fn write(&mut self, buf: &[u8]) -> Result<usize, DeviceFault> {
        self.flags.await_first();
        self.inner.write(buf)
    }

    fn faults(&self) -> u64 {
        self.inner.faults()
    }

    fn give_up(&self) {
        self.flags.set_second();
    }
}

/// What comes of a frame whose reply can't be written, from a peer that waits for it.
pub(crate) fn given_up_told<R>(rt: &R, alloc: Global) -> Result<String, RunFault>
where
    R: Threads + Wait + Sync + Copy + Send + 'static,
{
    let flags = Flags::new();
    let (mut source, mut sink) = ends_of(alloc, &flags)?;
    let (report, tally) = by_a_pool(rt, alloc, 1, &mut source, &mut sink)?;
    met_text(alloc, &flags, tally, report, sink.inner.bytes())
}

/// The devices, which wait for one another by flags.
fn ends_of<'a>(alloc: Global, flags: &'a Flags) -> Result<(Waiting<'a>, Failing<'a>), RunFault> {
    let frame = Vec::from_slice(alloc, &TWO_FRAMES[..FIRST_FRAME])?;
    let waiting = Waiting::new(frame, FIRST_FRAME, flags);
    let failing = Failing {
        inner: MemSink::new(alloc, ROOM, ROOM, 1)?,
        flags,
    };
    Ok((waiting, failing))
}
