//! What comes and goes on the socket of a connection.

ghost use Rattle.std.specs.Prelude.{◌≡◌, ◌++◌, [], take};
ghost use Rattle.std.specs.Io.{ReadsAtMost};
ghost use Rattle.mac_gate.specs.Lives.{Hears};

use crate::gathering::Gathered;
use mac_queue::History;
use mac_sockets::{Fresh, Stream};
use std::alloc::Global;
use std::io;

/// All bytes that passed one way on a socket, from its begin on. For contracts: they take no room.
/// Only a fresh socket has none.
#[derive(Drop)]
pub struct Trace {
    bytes: History<u8>,
}

/// What has come and gone, and what of it wasn't looked at yet.
#[derive(Drop)]
pub struct Flow {
    /// What came of a request in small pieces, and wasn't looked at yet.
    pub gathered: Gathered,
    /// What reads gave.
    pub came: Trace,
    /// What writes took.
    pub went: Trace,
}

/// What a read came to.
#[derive(Drop)]
pub struct Heard {
    /// How many bytes are looked at now, which stand at the front of the piece.
    pub outcome: io::Result<usize>,
    /// How many bytes came.
    pub came: usize,
    /// Whether there may be more to be read.
    pub has_more: bool,
}

impl Trace {
    /// Nothing has passed.
    fn new() -> Trace
        ensures { result.bytes ≡ [] }
    {
        Trace {
            bytes: History::new(),
        }
    }

    /// So many bytes more, in their order.
    pub fn add_all(&mut self, bytes: &[u8])
        ensures { self.new.bytes ≡ self.old.bytes ++ bytes.now }
    {
        for byte in bytes {
            self.bytes.add(byte);
        }
    }
}

impl Flow {
    /// A fresh socket, on which nothing has come or gone. It takes no memory.
    pub fn begin(alloc: Global, stream: Fresh) -> (Stream, Flow)
        ensures gathered { result.1.gathered.bytes.items ≡ [] }
        ensures came { result.1.came.bytes ≡ [] }
        ensures went { result.1.went.bytes ≡ [] }
    {
        let flow = Flow {
            gathered: Gathered::new(alloc),
            came: Trace::new(),
            went: Trace::new(),
        };
        (stream.into_stream(), flow)
    }

    /// Reads so many bytes at most into the piece, at this moment in microseconds. Small pieces are
    /// gathered, until it is time to look at them.
    pub fn read(&mut self, stream: &Stream, piece: &mut [u8], limit: usize, now: u64) -> Heard
        ensures bound { ReadsAtMost result.outcome piece.new }
        ensures hears { Hears self.old result.outcome piece.new self.new }
    {
        let room = piece.len().min(limit);
        match stream.read_past_signals(&mut piece[..room]) {
            Ok(count) => {
                self.came.add_all(&piece[..count]);
                let outcome = self.gathered.hear(piece, count, now);
                // The end is read once more behind what was gathered.
                let has_more = count == room || tells_more(&outcome, count);
                Heard {
                    outcome,
                    came: count,
                    has_more,
                }
            }
            Err(fault) => Heard {
                outcome: self.gathered.resume(piece, fault, now),
                came: 0,
                has_more: false,
            },
        }
    }
}

/// Whether more bytes are looked at than came.
fn tells_more(outcome: &io::Result<usize>, came: usize) -> bool {
    match outcome {
        Ok(told) => *told > came,
        Err(_) => false,
    }
}
