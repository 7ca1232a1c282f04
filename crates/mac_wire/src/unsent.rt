//! Bytes that wait to be sent.

ghost use Rattle.std.specs.Prelude.{◌≡◌, ◌≤◌, ◌++◌, [], length, drop, IsTrue, ◌↔◌, OnOk, OnErr, vec_len};
ghost use Rattle.mac_wire.specs.Reply.{IsReply, reply_frame};

use crate::NoMemory;
use crate::reply::{Reply, append_reply};
use crate::version::Version;
use std::alloc::Global;
use std::marker::Model;

/// The room that is kept while nothing waits, in bytes.
const ROOM_KEPT: usize = 4_096;

/// Bytes that wait to be sent, in order. What has gone out takes no more room than what waits.
#[derive(Drop)]
pub struct Unsent {
    bytes: Vec<u8>,
    start: usize,
}

impl Model for Unsent {
    ghost use Rattle.std.specs.Prelude.{◌≤◌, ℕ, List, drop, length};

    ghost Value = { List ℕ };

    ghost view = { λ u. drop u.start u.bytes.items };

    ghost invariant = { λ u. u.start ≤ length u.bytes.items };
}

impl Unsent {
    /// Nothing waits.
    pub fn new(alloc: Global) -> Unsent
        ensures { result ≡ [] }
    {
        Unsent {
            bytes: Vec::new(alloc),
            start: 0,
        }
    }

    /// The bytes, lent.
    pub fn as_slice(&self) -> &[u8]
        ensures { result.now ≡ self.now }
    {
        &self.bytes[self.start..]
    }

    /// How many bytes wait.
    pub fn len(&self) -> usize
        ensures { result ≡ length self.now }
    {
        self.bytes.len() - self.start
    }

    /// How many bytes of memory they have.
    pub fn capacity(&self) -> usize
        ensures { length self.now ≤ result }
    {
        self.bytes.capacity()
    }

    /// Whether none waits.
    pub fn is_empty(&self) -> bool
        ensures { IsTrue result ↔ (length self.now ≡ 0) }
    {
        self.bytes.len() == self.start
    }

    /// Puts the whole frame of the reply at a place behind what waits.
    pub fn append(&mut self, reply: &Reply, version: Version, place: u64) -> Result<(), NoMemory>
        requires { IsReply reply.now }
        ensures appended { OnOk result
            (self.new ≡ self.old ++ reply_frame version place reply.now) }
        ensures unchanged { OnErr result (self.new ≡ self.old) }
    {
        append_reply(&mut self.bytes, reply, version, place)
    }

    /// The first bytes have gone out. What waits is moved to the front only once as much has gone
    /// out, and the memory of much is given back once nothing waits.
    pub fn remove(&mut self, count: usize)
        requires { count ≤ length self.old }
        ensures { self.new ≡ drop count self.old }
    {
        let start = self.start + count;
        if start == self.bytes.len() {
            self.bytes.clear();
            self.bytes.shrink_to(ROOM_KEPT);
            self.start = 0;
        } else if start >= self.bytes.len() - start {
            remove_front(&mut self.bytes, start);
            self.start = 0;
        } else {
            self.start = start;
        }
    }
}

/// Removes the first bytes, and moves the others to the front.
fn remove_front(bytes: &mut Vec<u8>, count: usize)
    requires { count ≤ vec_len bytes.old }
    ensures { bytes.new.items ≡ drop count bytes.old.items }
{
    let length = bytes.len();
    bytes.as_mut_slice().copy_within(count..length, 0);
    bytes.truncate(length - count);
}
