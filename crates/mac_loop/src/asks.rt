//! What a loop has workers answer: jobs go into their line from the loop's desk, and the answers
//! come back to its mailbox. Those that wait go there in turn by the sockets that they came by.

ghost use Rattle.std.specs.Prelude.{◌≡◌};
ghost use Rattle.mac_loop.specs.Asks.{home_of};

use crate::members::Member;
use crate::register::Origin;
use crate::socket_queues::SocketQueues;
use mac_count::AnsweredRequest;
use mac_decide::{Job, Macaroons};
use mac_host::Socket;
use mac_order::Answer;
use mac_queue::{Desk, Post};
use mac_slots::Slots;
use mio::Waker;
use slab::Slab;
use std::alloc::Global;
use std::marker::Model;
use std::sync::Wait;

/// How many jobs of a loop are in the line for each worker at most: one that the worker has, and
/// the next one.
const FOR_EACH_WORKER: usize = 2;

/// From how many jobs on that wait it is looked whose clients have ended.
const SIFTED_MIN: usize = 8;

/// Who asked: the client of a slot, by the number of its connection.
#[derive(Clone, Copy)]
pub struct Asker {
    pub slot: usize,
    pub number: u64,
    /// When it did, in microseconds.
    pub since: u64,
}

/// What became of what workers gave back to a client.
#[derive(Clone, Copy)]
pub enum Delivered {
    /// The client is gone.
    Nowhere,
    /// It has had no answer of its own.
    Unanswered,
    /// It has its answer, which is counted so.
    Answered(AnsweredRequest),
}

/// What came of a job: the answer, or none for want of memory.
#[derive(Drop)]
pub struct Answered {
    pub asker: Asker,
    pub answer: Option<Answer<Macaroons>>,
}

/// A job that waits to go into the line.
#[derive(Drop)]
struct Ask {
    place: u64,
    job: Job,
}

/// A loop's desk, and who waits there for an answer. Contracts see where the desk is at home.
#[derive(Drop)]
pub(crate) struct Asks {
    desk: Desk<Macaroons>,
    // Who waits for the answer at each place.
    askers: Slab<Asker>,
    // What isn't in the line yet.
    unput: SocketQueues<Ask>,
    // How many of its jobs are in the line at a time, at most.
    most: usize,
    // How many waited at the last look at whose clients have ended, or at any moment since.
    sifted: usize,
}

impl Asker {
    /// Whether the client that asked is still in its slot.
    fn is_there<O: Origin>(&self, slots: &Slots<Member<O>>) -> bool {
        let member = slots.get(self.slot);
        member.is_some_and(|member| member.note.badge.number == self.number)
    }
}

impl Model for Asks {
    ghost use Rattle.mac_loop.specs.Asks.{Home, home_of};

    ghost Value = { Home };

    ghost view = { λ a. home_of a.desk };
}

impl Asks {
    /// Nobody waits at this desk, whose line so many workers take from. The loop's own waker ends
    /// its waits once an answer has come.
    pub fn new(alloc: Global, desk: Desk<Macaroons>, workers: usize, waker: Option<Waker>) -> Asks
        ensures { result ≡ home_of desk }
    {
        if let Some(waker) = waker {
            desk.taker.wake_by(waker);
        }
        Asks {
            desk,
            askers: Slab::new(alloc),
            unput: SocketQueues::new(alloc),
            most: workers.saturating_mul(FOR_EACH_WORKER),
            sifted: 0,
        }
    }

    /// The desk. Nobody waits there any more.
    pub fn into_desk(self) -> Desk<Macaroons>
        ensures { home_of result ≡ self }
    {
        let Asks {
            desk,
            askers: _,
            unput: _,
            most: _,
            sifted: _,
        } = self;
        desk
    }

    /// Has a worker answer a job of a client that came in at a socket. Whether there is memory to
    /// wait for that.
    pub fn ask<R: Wait>(&mut self, rt: &R, socket: Socket, asker: Asker, job: Job) -> bool
        ensures { self.new ≡ self.old }
    {
        if self.askers.reserve(1).is_err() {
            return false;
        }
        let place = self.askers.insert_reserved(asker) as u64;
        if self.unput.push(socket, Ask { place, job }).is_err() {
            let _ = self.askers.try_remove(place as usize);
            return false;
        }
        self.put_more(rt);
        true
    }

    /// Whether jobs wait for room in the line.
    pub fn has_unput(&self) -> bool {
        self.unput.len() > 0
    }

    /// Drops the jobs that aren't in the line and whose clients have ended, where there may be as
    /// many of these as of others. No client may be out of its slot.
    pub fn sift<O: Origin>(&mut self, slots: &Slots<Member<O>>)
        ensures { self.new ≡ self.old }
    {
        self.sifted = self.sifted.min(self.unput.len());
        if self.unput.len() < self.sifted.saturating_mul(2).max(SIFTED_MIN) {
            return;
        }
        self.sift_at(Socket::Main, slots);
        self.sift_at(Socket::Side, slots);
        self.sifted = self.unput.len();
    }

    /// The same of those that came in at a socket.
    fn sift_at<O: Origin>(&mut self, socket: Socket, slots: &Slots<Member<O>>)
        ensures { self.new ≡ self.old }
    {
        let askers = &mut self.askers;
        self.unput
            .retain(socket, |ask| is_awaited(askers, slots, ask.place));
    }

    /// Puts jobs that wait into the line, as far as there is room now, and no more than the workers
    /// are soon to take.
    pub fn put_more<R: Wait>(&mut self, rt: &R)
        ensures { self.new ≡ self.old }
    {
        for _ in self.out()..self.most {
            let Some((socket, ask)) = self.unput.pop() else {
                return;
            };
            if let Err(ask) = put(rt, &mut self.desk, ask) {
                self.unput.put_back(socket, ask);
                return;
            }
        }
    }

    /// How many jobs are in the line or with workers.
    fn out(&self) -> usize {
        self.askers.len().saturating_sub(self.unput.len())
    }

    /// What came of a job next, and who asked.
    pub fn next<R: Wait>(&mut self, rt: &R) -> Option<Answered>
        ensures { self.new ≡ self.old }
    {
        let (place, answer) = match self.desk.taker.take(rt)? {
            Post::Answered(place, answer) => (place, Some(answer)),
            Post::Failed(place) => (place, None),
        };
        let asker = self.askers.try_remove(place as usize)?;
        Some(Answered { asker, answer })
    }
}

/// Whether the client that asked at a place is still there. Else nobody waits at that place any more.
fn is_awaited<O: Origin>(askers: &mut Slab<Asker>, slots: &Slots<Member<O>>, place: u64) -> bool {
    let is_there = match askers.get(place as usize) {
        Some(asker) => asker.is_there(slots),
        None => false,
    };
    if !is_there {
        let _ = askers.try_remove(place as usize);
    }
    is_there
}

/// Puts a job into the line from a desk. Where there is no room it comes back.
fn put<R: Wait>(rt: &R, desk: &mut Desk<Macaroons>, ask: Ask) -> Result<(), Ask>
    ensures { home_of desk.new ≡ home_of desk.old }
{
    let Ask { place, job } = ask;
    match desk.putter.put(rt, place, job) {
        Ok(()) => Ok(()),
        Err((_, job)) => Err(Ask { place, job }),
    }
}
