//! What answering keeps from one run of jobs to the next.

use crate::choosing::LANES;
use crate::seen::SeenTokens;
use std::alloc::Global;
use std::array;

/// How many jobs make a run, and are worked on together.
pub const RUN: usize = 32;

/// The greatest room that is kept for the next run, in bytes.
const ROOM_KEPT: usize = 65_536;

/// A room for each job of a run, for the token that comes as base64 text or in JSON, and a memory
/// of tokens. A room takes memory at its first token, and keeps it.
#[derive(Drop)]
pub struct Rooms {
    pub(crate) held: [Vec<u8>; RUN],
    pub(crate) seen: SeenTokens,
    /// How many jobs of the last run no memory told.
    pub(crate) asked: usize,
}

impl Rooms {
    /// Rooms that hold nothing and take no memory, beside a memory of tokens.
    pub fn new(alloc: Global, seen: SeenTokens) -> Rooms {
        Rooms {
            held: array::from_fn(|_| Vec::new(alloc)),
            seen,
            asked: 0,
        }
    }

    /// Whether the last run hashed for so many jobs that others like it are worth further threads.
    pub fn was_dear(&self) -> bool {
        self.asked >= LANES
    }

    /// Gives back the memory of each room that has grown large.
    pub(crate) fn give_back(&mut self, alloc: Global) {
        for room in 0..RUN {
            if self.held[room].capacity() > ROOM_KEPT {
                self.held[room] = Vec::new(alloc);
            }
        }
    }
}
