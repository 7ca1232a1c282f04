//! Clients that give way: where there are as many as there may be, a further one comes in the place
//! of the one that has rested longest.

use crate::inbox::Loops;
use crate::looping::Loop;
use crate::register::Origin;
use crate::resting::stalest;
use crate::watch::Watch;
use mac_host::Socket;
use mac_sockets::REST_MIN;
use std::sync::Wait;
use std::time::Clock;

impl<O: Origin> Loop<O> {
    /// Has another client give way to the newcomer where one is to: of which socket, is decided
    /// here, by how many there are now. Whether there is room for it: else it is turned away.
    pub(super) fn admit<R: Wait + Clock, W: Watch>(&mut self, rt: &R, watch: &W) -> bool {
        let Some(client) = self.roll.newcomer() else {
            return false;
        };
        if client.displaces.is_none() {
            return true;
        }
        let comes = client.badge.socket;
        let gives_way = match watch.gives_way(rt, comes) {
            Some(socket) => self.find_stalest(socket, comes),
            None => None,
        };
        if let Some(slot) = gives_way {
            self.count_out(slot);
        }
        self.roll.displace(rt, watch, gives_way)
    }

    /// The slot of the client that has rested longest of those that came in at a socket, for one
    /// that comes in at this one: of its own it has to have rested for long enough.
    fn find_stalest(&mut self, socket: Socket, comes: Socket) -> Option<usize> {
        for slot in 0..self.roll.slots().bound() {
            let _ = self.roll.note_rest(slot, self.now);
        }
        let found = stalest(self.roll.slots(), socket)?;
        let is_own = comes == socket;
        if is_own && self.now.saturating_sub(found.since) < REST_MIN {
            return None;
        }
        Some(found.slot)
    }

    /// Tells others since when its clients have rested.
    pub(super) fn tell_stalest(&self, loops: &Loops<O>) {
        self.tell_stalest_of(loops, Socket::Main);
        self.tell_stalest_of(loops, Socket::Side);
    }

    /// The same of those that came in at a socket.
    fn tell_stalest_of(&self, loops: &Loops<O>, socket: Socket) {
        let found = stalest(self.roll.slots(), socket);
        loops.note_stalest(self.number, socket, found.map(|found| found.since));
    }
}
