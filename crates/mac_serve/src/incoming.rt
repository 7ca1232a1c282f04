//! The arrivals of a source.

ghost use Rattle.std.specs.Prelude.{◌≡◌, ◌≢◌, ◌⊎◌, ◌<◌, ℕ, Bool, List, [], None, length, IsTrue, IfOk, IsOk, IsSome};
ghost use Rattle.mac_serve.specs.declared.incoming.InboundFault.TheVariants.{NoMemory};

use mac_wire::{Arrival, Ending, FrameReader, NoMemory, Source, Version};
use std::alloc::{AllocError, AllocFailed, Global};
use std::mem;

/// How many bytes a read asks for.
const PIECE: usize = 65_536;

/// Why no more requests are read.
#[derive(Clone, Copy, Debug, PartialEq, Eq)]
pub enum InboundFault {
    /// The source failed.
    Read,
    /// Memory was refused.
    NoMemory,
    /// There is no further place in the ring, or no place in the queue, or the source's failures
    /// can't be counted any more.
    Exhausted,
    /// The outbound half had ended.
    Stopped,
}

impl From<AllocError> for InboundFault {
    ghost from_gives = { λ _ fault. fault ≡ NoMemory };

    fn from(_refused: AllocError) -> InboundFault {
        InboundFault::NoMemory
    }
}

impl<T: Drop> From<AllocFailed<T>> for InboundFault {
    ghost from_gives = { λ _ fault. fault ≡ NoMemory };

    fn from(_refused: AllocFailed<T>) -> InboundFault {
        InboundFault::NoMemory
    }
}

/// What comes in from a source: the reader of its frames, room for a piece of its bytes, and what
/// the first piece gave.
#[derive(Drop)]
pub struct Incoming {
    pub reader: FrameReader,
    pub first: Result<Option<Vec<Arrival>>, InboundFault>,
    piece: Vec<u8>,
    ghost has_room: { 0 < length piece.items },
}

impl Incoming {
    ghost use Rattle.mac_wire.specs.declared.arrival.Arrival.{Arrival};
    ghost use Rattle.mac_wire.specs.Stream.{arrivals_of, version_or_one};
    ghost use Rattle.mac_wire.specs.FrameReader.{HasRead, HasEnded, version_of};
    ghost use Rattle.mac_wire.specs.Session.{HasCome};
    ghost use Rattle.mac_serve.specs.Receiving.{Reads, CountsRead};

    /// Nothing has come yet.
    pub fn new(alloc: Global) -> Result<Incoming, NoMemory>
        ensures { IfOk result (λ incoming. HasRead incoming.reader [] []) }
    {
        let mut piece = Vec::new(alloc);
        piece.resize(PIECE, 0)?;
        Ok(Incoming {
            reader: FrameReader::new(alloc),
            first: Ok(None),
            piece,
        })
    }

    /// What came behind the last arrival that is answered, of a stream of this version, comes
    /// again.
    pub fn resumed(
        alloc: Global,
        version: Option<Version>,
        carried: &[u8],
    ) -> Result<Incoming, NoMemory>
        ensures reads { (tells : Bool) (given stream : List ℕ) (arrived : List Arrival)
            → IsSome version → HasCome version stream arrived carried.now
            → IfOk result (λ i. Reads tells given given stream arrived i.first i.reader) }
        ensures more { IfOk result (λ i. IfOk i.first (λ more. IsSome more)) }
        ensures counts { IfOk result (λ i. IsOk i.first) }
    {
        let mut piece = Vec::new(alloc);
        piece.resize(PIECE, 0)?;
        let (reader, arrivals) = FrameReader::resumed(alloc, version, carried)?;
        Ok(Incoming {
            reader,
            first: Ok(Some(arrivals)),
            piece,
        })
    }

    /// Reads the first piece of a stream, which tells its version.
    pub fn begin<In: Source>(&mut self, source: &mut In)
        requires { HasRead self.old.reader [] [] }
        ensures reads { Reads In.tells (In.taken source.old) (In.taken source.new) [] []
            self.new.first self.new.reader }
        ensures end { IfOk self.new.first (λ more. more ≡ None
            → IsTrue (In.ended source.new) ⊎ HasEnded self.new.reader) }
        ensures faults { CountsRead self.new.first (In.faults source.old) (In.faults source.new) }
    {
        self.first = self.next(source);
    }

    /// The version of the stream, if it was to end here.
    pub fn version(&self) -> Version
        ensures { result ≡ version_or_one (version_of self.now.reader) }
    {
        self.reader.version().unwrap_or(Version::One)
    }

    /// Reads some bytes, and gives the arrivals that are whole with them: `None` at the end of the
    /// source, and behind an oversize frame. Where a failure of the source couldn't be counted,
    /// nothing is read.
    pub fn next<In: Source>(
        &mut self,
        source: &mut In,
    ) -> Result<Option<Vec<Arrival>>, InboundFault>
        ensures reads { (stream : List ℕ) (handed : List Arrival)
            → HasRead self.old.reader stream handed
            → Reads In.tells (In.taken source.old) (In.taken source.new) stream handed result
            self.new.reader }
        ensures end { result ≡ Ok None
            → IsTrue (In.ended source.new) ⊎ HasEnded self.new.reader }
        ensures faults { CountsRead result (In.faults source.old) (In.faults source.new) }
    {
        if self.reader.has_ended() {
            return Ok(None);
        }
        if source.faults() == u64::MAX {
            return Err(InboundFault::Exhausted);
        }
        let count = match source.read(self.piece.as_mut_slice()) {
            Ok(0) => return Ok(None),
            Ok(count) => count,
            Err(_) => return Err(InboundFault::Read),
        };
        match self.reader.feed(&self.piece[..count]) {
            Ok(arrivals) => Ok(Some(arrivals)),
            Err(_) => Err(InboundFault::NoMemory),
        }
    }

    /// How the stream ended. What comes in then is another.
    pub fn finish(&mut self, alloc: Global) -> Ending
        ensures ending { (stream : List ℕ) (handed : List Arrival)
            → HasRead self.old.reader stream handed → arrivals_of stream ≡ record {
              version = version_or_one (version_of self.old.reader);
              arrived = handed;
              ending = result;
            } }
        ensures whole { (stream : List ℕ) (handed : List Arrival)
            → HasRead self.old.reader stream handed → result ≢ Ending.Broken }
        ensures oversize { HasEnded self.old.reader → result ≢ Ending.Broken
            → result ≡ Ending.Oversize }
    {
        mem::replace(&mut self.reader, FrameReader::new(alloc)).finish()
    }
}
