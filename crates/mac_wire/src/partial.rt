//! A frame of which not all has come.

ghost use Rattle.std.specs.Prelude.{◌≡◌, ◌⊎◌, ◌<◌, ◌≤◌, ◌++◌, ◌∷◌, [], length, IfOk};
ghost use Rattle.mac_wire.specs.Frame.{frames_of};
ghost use Rattle.mac_wire.specs.Steps.{Makes, Advances};

use crate::NoMemory;
use crate::arrival::{Ending, FRAME_MAX};
use std::alloc::Global;
use std::marker::Model;

/// What has come of a frame: at first of its length, then of its payload. No memory is taken for
/// bytes that have not come.
#[derive(Drop)]
pub struct Partial {
    length: [u8; 4],
    have: usize,
    payload: Vec<u8>,
}

impl Model for Partial {
    ghost use Rattle.std.specs.Prelude.{◌++◌, ℕ, List, take};
    ghost use Rattle.mac_wire.specs.Partial.{IsPartial};

    ghost Value = { List ℕ };

    ghost view = { λ p. take p.have p.length ++ p.payload.items };

    ghost invariant = { λ p. IsPartial p.length p.have p.payload.items };
}

/// What the front of a piece makes of an unfinished frame.
#[derive(Drop)]
pub enum Step {
    /// More is needed.
    Unfinished(Partial),
    /// The frame is whole, and this is its payload.
    Whole(Vec<u8>),
    /// The length tells more than a frame may have.
    TooLong,
}

impl Partial {
    /// Nothing has come.
    pub fn new(alloc: Global) -> Partial
        ensures { result ≡ [] }
    {
        Partial {
            length: [0; 4],
            have: 0,
            payload: Vec::new(alloc),
        }
    }

    /// How a stream ends that ends here: Clean where nothing has come of a frame, and else Torn.
    pub fn ending(&self) -> Ending
        ensures ending { frames_of self.now ≡ record { arrived = []; ending = result } }
        ensures ongoing { (result ≡ Ending.Clean) ⊎ (result ≡ Ending.Torn) }
    {
        if self.have == 0 {
            Ending::Clean
        } else {
            Ending::Torn
        }
    }

    /// The bytes that have come.
    pub fn into_bytes(self, alloc: Global) -> Result<Vec<u8>, NoMemory>
        ensures { IfOk result (λ bytes. bytes.items ≡ self) }
    {
        let Partial {
            length,
            have,
            payload,
        } = self;
        let mut bytes = Vec::from_slice(alloc, &length[..have])?;
        bytes.extend_from_slice(payload.as_slice())?;
        Ok(bytes)
    }

    /// Takes bytes from the front of a piece, at least one, and gives the rest of the piece.
    pub fn advance(self, piece: &[u8]) -> Result<(Step, &[u8]), NoMemory>
        requires { 0 < length piece.now }
        ensures { IfOk result (λ x. Advances self piece.now x.1.now x.0) }
    {
        if self.have < 4 {
            let (first, rest) = piece.split_at(1);
            return Ok((self.with_length_byte(first[0]), rest));
        }
        self.with_payload(piece)
    }

    /// Takes a byte of the length.
    fn with_length_byte(self, byte: u8) -> Step
        requires { length self < 4 }
        ensures { Makes result (self ++ byte ∷ []) }
    {
        let Partial {
            mut length,
            have,
            payload,
        } = self;
        length[have] = byte;
        if have < 3 {
            let have = have + 1;
            return Step::Unfinished(Partial {
                length,
                have,
                payload,
            });
        }
        match u32::from_be_bytes(length) as usize {
            0 => Step::Whole(payload),
            told if told > FRAME_MAX => Step::TooLong,
            _ => Step::Unfinished(Partial {
                length,
                have: 4,
                payload,
            }),
        }
    }

    /// Takes as much of the payload as there is.
    fn with_payload(self, piece: &[u8]) -> Result<(Step, &[u8]), NoMemory>
        requires long { 4 ≤ length self }
        requires some { 0 < length piece.now }
        ensures { IfOk result (λ x. Advances self piece.now x.1.now x.0) }
    {
        let Partial {
            length,
            have,
            mut payload,
        } = self;
        let told = u32::from_be_bytes(length) as usize;
        let count = piece.len().min(told - payload.len());
        let (front, rest) = piece.split_at(count);
        payload.extend_from_slice(front)?;
        if payload.len() == told {
            return Ok((Step::Whole(payload), rest));
        }
        let partial = Partial {
            length,
            have,
            payload,
        };
        Ok((Step::Unfinished(partial), rest))
    }
}
