//! What a connection has between two requests, whichever thread answers the next.

ghost use Rattle.std.specs.Prelude.{◌≡◌, [], ℕ, List};
ghost use Rattle.mac_wire.specs.declared.arrival.Arrival.{Arrival};
ghost use Rattle.mac_wire.specs.declared.reply.Reply.{Reply};
ghost use Rattle.mac_wire.specs.Session.{Stands};

use crate::unsent::Unsent;
use crate::version::Version;
use std::alloc::Global;

/// A connection between two requests: what is kept of it when it is answered elsewhere from now on.
#[derive(Drop)]
pub struct Session {
    /// The version that the stream has told; none as long as nothing has come.
    pub version: Option<Version>,
    /// How many arrivals are answered, which is the next reply's place.
    pub answered: u64,
    /// What was read behind the last arrival that is answered.
    pub carried: Vec<u8>,
    /// The frames of replies, as far as they haven't gone out.
    pub unsent: Unsent,
}

impl Session {
    /// A connection on which nothing has come.
    pub fn new(alloc: Global) -> Session
        ensures { Stands result [] [] [] [] }
    {
        Session {
            version: None,
            answered: 0,
            carried: Vec::new(alloc),
            unsent: Unsent::new(alloc),
        }
    }
}
