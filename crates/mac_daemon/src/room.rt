//! How many connections there are at the sockets of a daemon, and who gives way to a further one.

ghost use Rattle.std.specs.Prelude.{◌≡◌, ◌+◌, if◌then◌else◌};
ghost use Rattle.mac_daemon.specs.Room.{entry_at, full_at, has_room, IsWithin, no_connections};
ghost use Rattle.mac_daemon.specs.Room.{with_entry, with_one, without_one};

use mac_host::Socket;
use std::marker::Model;

/// How many connections there may be at a time.
#[derive(Clone, Copy, Debug, PartialEq, Eq)]
pub struct Most {
    /// At all sockets together.
    pub all: u64,
    /// At the second one.
    pub side: u64,
}

/// What becomes of a connection that comes in.
#[derive(Clone, Copy, Debug, PartialEq, Eq)]
pub enum Entry {
    /// There is room for it, and it is counted.
    Free,
    /// There are as many at the second socket as there may be: one of those gives way.
    SideFull,
    /// There are as many at all as there may be: one of this socket gives way.
    Full(Socket),
}

/// How many connections there are at each socket, and how many there may be: never more.
#[derive(Drop)]
pub struct Room {
    most: Most,
    main: u64,
    side: u64,
}

impl Model for Room {
    ghost use Rattle.std.specs.Prelude.{◌+◌, ◌≤◌};
    ghost use Rattle.mac_daemon.specs.Room.{Places};

    ghost Value = { Places };

    ghost view = { λ r. record { most = r.most; main = r.main; side = r.side } };

    ghost invariant = { λ r. (r.main + r.side ≤ r.most.all) × (r.side ≤ r.most.side) };
}

impl Room {
    /// No connections yet, of so many.
    pub fn new(most: Most) -> Room
        ensures { result ≡ no_connections most }
    {
        Room {
            most,
            main: 0,
            side: 0,
        }
    }

    /// How many there are.
    pub fn live(&self) -> u64
        ensures live { result ≡ self.now.main + self.now.side }
        ensures within { IsWithin self.now }
    {
        self.main + self.side
    }

    /// How many there may be.
    pub fn most(&self) -> Most
        ensures { result ≡ self.now.most }
    {
        self.most
    }

    /// Whether there may be one more at a socket.
    fn has_room(&self, socket: Socket) -> bool
        ensures { result ≡ has_room self.now socket }
    {
        let is_room = self.main < self.most.all.saturating_sub(self.side);
        match socket {
            Socket::Main => is_room,
            Socket::Side => is_room && self.side < self.most.side,
        }
    }

    /// Counts one more at a socket, where there may be one. Whether that was so.
    pub fn take(&mut self, socket: Socket) -> bool
        ensures free { result ≡ has_room self.old socket }
        ensures new { self.new ≡ (if result then with_one self.old socket else self.old) }
    {
        if !self.has_room(socket) {
            return false;
        }
        match socket {
            Socket::Main => self.main += 1,
            Socket::Side => self.side += 1,
        }
        true
    }

    /// What becomes of a connection that comes in at a socket. Where there is no room for it, one
    /// gives way: at the second socket's own limit one of its own, and at the limit for all one of
    /// the socket that has more.
    pub fn enter(&mut self, socket: Socket) -> Entry
        ensures entry { result ≡ entry_at self.old socket }
        ensures new { self.new ≡ with_entry self.old socket result }
    {
        if self.take(socket) {
            return Entry::Free;
        }
        self.full_at(socket)
    }

    /// What becomes of one that comes in now, and isn't counted yet.
    pub fn entry(&self, socket: Socket) -> Entry
        ensures { result ≡ entry_at self.now socket }
    {
        if self.has_room(socket) {
            return Entry::Free;
        }
        self.full_at(socket)
    }

    /// Who gives way to one that comes in at a socket where there is no room for it.
    fn full_at(&self, socket: Socket) -> Entry
        ensures { result ≡ full_at self.now socket }
    {
        match socket {
            Socket::Side if self.side >= self.most.side => Entry::SideFull,
            Socket::Side if self.side < self.main => Entry::Full(Socket::Main),
            Socket::Main if self.main >= self.side => Entry::Full(Socket::Main),
            _ => Entry::Full(Socket::Side),
        }
    }

    /// Counts one less at a socket.
    pub fn leave(&mut self, socket: Socket)
        ensures { self.new ≡ without_one self.old socket }
    {
        match socket {
            Socket::Main => self.main = self.main.saturating_sub(1),
            Socket::Side => self.side = self.side.saturating_sub(1),
        }
    }
}
