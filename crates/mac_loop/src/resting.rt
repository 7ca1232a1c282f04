//! Which client of a loop has rested longest.

ghost use Rattle.std.specs.Prelude.{◌≡◌, ◌⊎◌, ℕ, IfSome, Some};
ghost use Rattle.mac_loop.specs.Resting.{IsStalest, rested_at, RestedSince, since_at};

use crate::members::Member;
use crate::register::Origin;
use mac_host::Socket;
use mac_slots::Slots;

/// Since when the client of a slot has rested.
#[derive(Clone, Copy, Debug, PartialEq, Eq)]
pub struct Resting {
    /// The slot.
    pub slot: usize,
    /// Since when, in microseconds.
    pub since: u64,
}

impl<O: Origin> Member<O> {
    /// Since when it has rested, where it came in at this socket.
    pub fn rested_since(&self, socket: Socket) -> Option<u64>
        ensures { result ≡ since_at socket self.now }
    {
        match (socket, self.note.badge.socket) {
            (Socket::Main, Socket::Main) | (Socket::Side, Socket::Side) => Some(self.note.since),
            (Socket::Main, Socket::Side) | (Socket::Side, Socket::Main) => None,
        }
    }
}

/// The one that has rested longest of those that came in at a socket, where there is one.
pub fn stalest<O: Origin>(slots: &Slots<Member<O>>, socket: Socket) -> Option<Resting>
    ensures { IsStalest socket slots.now result }
{
    let mut found = None;
    for slot in 0..slots.bound() {
        found = staler(found, slot, since_of(slots, slot, socket));
    }
    found
}

/// Since when the client of a slot has rested, where one is there that came in at this socket.
fn since_of<O: Origin>(slots: &Slots<Member<O>>, slot: usize, socket: Socket) -> Option<u64>
    ensures { result ≡ rested_at socket slots.now slot }
{
    match slots.get(slot) {
        Some(member) => member.rested_since(socket),
        None => None,
    }
}

/// The one that was found, or that of a slot where it has rested longer.
fn staler(found: Option<Resting>, slot: usize, since: Option<u64>) -> Option<Resting>
    ensures one { IfSome result (λ one.
        (found ≡ Some one) ⊎ ((one.slot ≡ slot) × (since ≡ Some one.since))) }
    ensures found { (then : ℕ) → RestedSince found then → RestedSince result then }
    ensures since { IfSome since (λ since. RestedSince result since) }
{
    let Some(since) = since else {
        return found;
    };
    match found {
        Some(other) if other.since <= since => found,
        _ => Some(Resting { slot, since }),
    }
}
