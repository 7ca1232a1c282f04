//! The frames of a stream that comes in pieces.

ghost use Rattle.std.specs.Prelude.{◌≡◌, ◌↔◌, ◌⊎◌, ◌<◌, ℕ, List, [], ◌++◌, length, IsTrue, IfOk, OnErr, IsErrOf};
ghost use Rattle.mac_wire.specs.Steps.{Cuts, frames_after, told_after};
ghost use Rattle.mac_wire.specs.declared.arrival.Arrival.{Arrival};
ghost use Rattle.mac_wire.specs.declared.frame.FeedFault.TheVariants.{NoMemory};

use crate::NoMemory;
use crate::arrival::{Arrival, Ending};
use crate::bytes::Bytes;
use crate::partial::{Partial, Step};
use crate::version::{HELLO, Version};
use std::alloc::{AllocError, AllocFailed, Global};
use std::mem;
use thiserror::Error;

/// Why a piece was not read.
#[derive(Clone, Copy, Debug, Error)]
pub enum FeedFault {
    /// Memory was refused. The arrivals of the piece are lost.
    #[error("memory ran out")]
    NoMemory,
    /// The stream ended at an Oversize, or an earlier feed failed.
    #[error("the stream has ended")]
    Ended,
}

impl From<AllocError> for FeedFault {
    ghost from_gives = { λ _ e. e ≡ NoMemory };

    fn from(_e: AllocError) -> FeedFault {
        FeedFault::NoMemory
    }
}

impl<T: Drop> From<AllocFailed<T>> for FeedFault {
    ghost from_gives = { λ _ e. e ≡ NoMemory };

    fn from(_e: AllocFailed<T>) -> FeedFault {
        FeedFault::NoMemory
    }
}

/// How far a reader has come.
#[derive(Drop)]
enum Stage {
    /// It reads on, and holds what has come of an unfinished frame.
    Open(Partial),
    /// A frame told too great a length.
    Oversize,
    /// Memory was refused.
    Broken,
}

/// Tells a stream's version and cuts it into frames, however the pieces come.
#[derive(Drop)]
pub struct FrameReader {
    alloc: Global,
    version: Option<Version>,
    stage: Stage,
}

impl FrameReader {
    ghost use Rattle.mac_wire.specs.FrameReader.{HasRead, HasEnded, IsBroken, version_of};
    ghost use Rattle.mac_wire.specs.Session.{HasCome};
    ghost use Rattle.mac_wire.specs.Stream.{arrivals_of, in_version, version_or_one, version_told};

    /// A reader that was fed nothing. It keeps the allocator.
    pub fn new(alloc: Global) -> FrameReader
        ensures { HasRead result [] [] }
    {
        FrameReader {
            alloc,
            version: None,
            stage: Stage::Open(Partial::new(alloc)),
        }
    }

    /// A reader that goes on in the middle of a stream of this version, as if it had been fed all
    /// that came. It is fed what is carried, and gives the arrivals that are whole in there.
    pub fn resumed(
        alloc: Global,
        version: Option<Version>,
        carried: &[u8],
    ) -> Result<(FrameReader, Vec<Arrival>), NoMemory>
        ensures arrivals { (stream : List ℕ) (arrived : List Arrival)
            → HasCome version stream arrived carried.now
            → IfOk result (λ r. HasRead r.0 stream (arrived ++ r.1.items)) }
        ensures version { IfOk result (λ r. version_of r.0 ≡ version) }
    {
        let (arrivals, stage) = cut(alloc, Partial::new(alloc), carried)?;
        let reader = FrameReader {
            alloc,
            version,
            stage,
        };
        Ok((reader, arrivals))
    }

    /// The bytes of the frame that is unfinished, with which another reader can go on; none of a
    /// reader that has ended.
    pub fn into_carried(self) -> Result<Vec<u8>, NoMemory>
        ensures { (stream : List ℕ) (handed : List Arrival)
            → HasRead self stream handed → ¬ HasEnded self
            → IfOk result (λ carried. HasCome (version_of self) stream handed carried.items) }
    {
        let FrameReader {
            alloc,
            version: _,
            stage,
        } = self;
        match stage {
            Stage::Open(partial) => partial.into_bytes(alloc),
            Stage::Oversize | Stage::Broken => Ok(Vec::new(alloc)),
        }
    }

    /// Feeds the next piece of the stream, and gives the arrivals that are whole with it. A piece
    /// costs the time of its bytes, and the memory of its payloads and of one unfinished frame.
    /// After `NoMemory` and after an Oversize each later feed answers `Ended` and changes nothing.
    pub fn feed(&mut self, piece: &[u8]) -> Result<Vec<Arrival>, FeedFault>
        ensures arrivals { (stream : List ℕ) (handed : List Arrival)
            → HasRead self.old stream handed
            → IfOk result (λ more. HasRead self.new (stream ++ piece.now) (handed ++ more.items)) }
        ensures version { (stream : List ℕ) (handed : List Arrival)
            → HasRead self.old stream handed
            → version_of self.new ≡ version_told (stream ++ piece.now) }
        ensures ended { IsErrOf result FeedFault.Ended ↔ HasEnded self.old }
        ensures unchanged { HasEnded self.old → self.new ≡ self.old }
        ensures broken { IsErrOf result FeedFault.NoMemory → IsBroken self.new }
        ensures memory { IsErrOf result FeedFault.NoMemory → 0 < length piece.now }
    {
        match mem::replace(&mut self.stage, Stage::Broken) {
            Stage::Open(partial) => {
                let (version, frames) = opened(self.version, piece);
                self.version = version;
                let (arrivals, stage) = cut(self.alloc, partial, frames)?;
                self.stage = stage;
                Ok(arrivals)
            }
            ended => {
                self.stage = ended;
                Err(FeedFault::Ended)
            }
        }
    }

    /// The stream's version, which its first byte tells.
    pub fn version(&self) -> Option<Version>
        ensures reader { result ≡ version_of self.now }
        ensures stream { (stream : List ℕ) (handed : List Arrival)
            → HasRead self.now stream handed → result ≡ version_told stream }
    {
        self.version
    }

    /// Whether each further feed answers `Ended`: after an Oversize, and after `NoMemory`.
    pub fn has_ended(&self) -> bool
        ensures { IsTrue result ↔ HasEnded self.now }
    {
        match &self.stage {
            Stage::Open(_) => false,
            Stage::Oversize | Stage::Broken => true,
        }
    }

    /// How the stream ended.
    pub fn finish(self) -> Ending
        ensures ending { (stream : List ℕ) (handed : List Arrival) → HasRead self stream handed
            → arrivals_of stream ≡ record {
              version = version_or_one (version_of self);
              arrived = handed;
              ending = result;
            } }
        ensures broken { (result ≡ Ending.Broken) ↔ IsBroken self }
        ensures ongoing { ((result ≡ Ending.Clean) ⊎ (result ≡ Ending.Torn)) → ¬ HasEnded self }
        ensures ended { result ≡ Ending.Oversize → HasEnded self }
    {
        match &self.stage {
            Stage::Open(partial) => partial.ending(),
            Stage::Oversize => Ending::Oversize,
            Stage::Broken => Ending::Broken,
        }
    }
}

/// The stream's version once a piece has come, and what of the piece is frames.
pub fn opened(version: Option<Version>, piece: &[u8]) -> (Option<Version>, &[u8])
    ensures version { result.0 ≡ told_after version piece.now }
    ensures frames { result.1.now ≡ frames_after version piece.now }
{
    let (None, Some((first, rest))) = (version, piece.split_first()) else {
        return (version, piece);
    };
    if *first == HELLO {
        (Some(Version::Two), rest)
    } else {
        (Some(Version::One), piece)
    }
}

/// The arrivals that a piece makes whole, and the stage that it leaves.
fn cut(alloc: Global, held: Partial, piece: &[u8]) -> Result<(Vec<Arrival>, Stage), NoMemory>
    ensures cuts { IfOk result (λ x. Cuts held piece.now x.0.items x.1) }
    ensures memory { OnErr result (0 < length piece.now) }
{
    let mut arrivals = Vec::new(alloc);
    let mut partial = held;
    let mut rest = piece;
    while !rest.is_empty() {
        let (step, after) = partial.advance(rest)?;
        rest = after;
        match step {
            Step::Unfinished(more) => partial = more,
            Step::Whole(payload) => {
                arrivals.push(Arrival::Payload(Bytes::new(payload)))?;
                partial = Partial::new(alloc);
            }
            Step::TooLong => {
                arrivals.push(Arrival::Oversize)?;
                return Ok((arrivals, Stage::Oversize));
            }
        }
    }
    Ok((arrivals, Stage::Open(partial)))
}
