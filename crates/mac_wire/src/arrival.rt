//! What comes out of a stream of frames.

ghost use Rattle.std.specs.Prelude.{◌≡◌, ◌≢◌, IfOk, OnErr};

use crate::NoMemory;
use crate::bytes::Bytes;
use std::alloc::Global;

/// The greatest payload of a frame, in bytes.
pub const FRAME_MAX: usize = 65_536;

/// One arrival of a stream.
#[derive(PartialEq, Eq, Drop)]
pub enum Arrival {
    /// The payload of a whole frame.
    Payload(Bytes),
    /// A frame that tells a greater length than [`FRAME_MAX`]. Nothing after it is read.
    Oversize,
}

impl Arrival {
    /// A copy of the arrival, at the cost of its bytes.
    pub fn copy(&self, alloc: Global) -> Result<Arrival, NoMemory>
        ensures same { IfOk result (λ arrival. arrival ≡ self.now) }
        ensures memory { OnErr result (self.now ≢ Arrival.Oversize) }
    {
        match self {
            Arrival::Payload(payload) => Ok(Arrival::Payload(payload.copy(alloc)?)),
            Arrival::Oversize => Ok(Arrival::Oversize),
        }
    }
}

/// How a stream ended.
#[derive(Clone, Copy, PartialEq, Eq)]
pub enum Ending {
    /// Between two frames.
    Clean,
    /// Inside a length or a payload.
    Torn,
    /// At a frame that tells a greater length than [`FRAME_MAX`].
    Oversize,
    /// The stream could not be read to its end.
    Broken,
}
