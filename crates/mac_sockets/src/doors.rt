//! The doors of a server, in the order in which they were opened.

use crate::door::Door;
use crate::holding::Holdings;
use crate::place::PlaceFault;
use std::alloc::Global;
use std::fs::{File, Files};
use std::net::Net;
use std::sync::Wait;
use std::time::Clock;

/// Doors that were opened one after another.
#[derive(Drop)]
pub struct Doors<G> {
    pub(crate) doors: Vec<Door<G>>,
}

impl<G: Drop> Doors<G> {
    ghost use Rattle.std.specs.Prelude.{◌≡◌, ◌==◌, ◌++◌, ◌∷◌, [], OnOk, length};
    ghost use Rattle.mac_sockets.specs.Entrance.{gift_of, gifts_of, opened};

    /// No door yet.
    pub fn new(alloc: Global) -> Doors<G>
        ensures { opened result ≡ [] }
    {
        Doors {
            doors: Vec::new(alloc),
        }
    }

    /// Whether there is none.
    pub fn is_empty(&self) -> bool
        ensures { result ≡ (length (opened self.now) == 0) }
    {
        self.doors.is_empty()
    }

    /// Makes a Unix socket at a path, which has these permissions and is among those that are held,
    /// and adds its door.
    pub fn open<R>(
        &mut self,
        rt: &R,
        path: &str,
        permissions: u32,
        gift: G,
        holdings: &mut Holdings,
    ) -> Result<(), PlaceFault>
    where
        R: Files<File = File> + Net + Clock + Wait,
        ensures { OnOk result (gifts_of self.new ≡ gifts_of self.old ++ gift ∷ []) }
    {
        let listener = holdings.bind(rt, path, permissions)?;
        self.add(Door::unix(listener, gift, false)?)
    }

    /// Adds a door.
    pub fn add(&mut self, door: Door<G>) -> Result<(), PlaceFault>
        ensures opened { OnOk result (opened self.new ≡ opened self.old ++ door ∷ []) }
        ensures gifts { OnOk result (gifts_of self.new ≡ gifts_of self.old ++ gift_of door ∷ []) }
    {
        match self.doors.push(door) {
            Ok(()) => Ok(()),
            Err(_) => Err(PlaceFault::NoMemory),
        }
    }
}
