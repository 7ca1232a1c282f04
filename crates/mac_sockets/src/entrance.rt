//! Where connections come in: sockets that listen, until it is shut.

ghost use Rattle.std.specs.Prelude.{◌≡◌, ◌<◌, [], IfOk, IsTrue, length};
ghost use Rattle.mac_sockets.specs.Entrance.{CountsArrived, CountsDown, doors_of, IsGiftAt, IsThroughOneOf};
ghost use Rattle.mac_sockets.specs.Entrance.{IsThroughOwn, opened, taken_of};

use crate::door::Door;
use crate::doors::Doors;
use crate::fault::WaitFault;
use crate::stream::Fresh;
use mio::unix::SourceFd;
use mio::{Events, Interest, Poll, Token, Waker};
use std::alloc::Global;
use std::io;
use std::net::Net;
use std::sync::atomic::AtomicBool;
use std::sync::atomic::Ordering::SeqCst;
use std::sync::{Arc, Wait};

/// The token of what shuts an entrance, which no door has.
const SHUTTER: usize = 1 << 40;

/// How many events are taken at a time.
const EVENTS: usize = 8;

/// How many connections are taken once it is shut, of those that wait already: as many as the
/// system lets wait at a socket.
const WAITING_MAX: usize = 4_096;

/// Sockets that listen, and what the waits for their connections end by.
#[derive(Drop)]
pub struct Entrance<G> {
    // There are none once no more connections are taken.
    doors: Vec<Door<G>>,
    // The door that is looked at first.
    next: usize,
    poll: Poll,
    events: Events,
    shutter: Arc<Shutter, Global>,
    // How many connections it still takes once it is shut.
    waiting: usize,
    // How many have come in.
    taken: u64,
}

/// Shuts an entrance, from any thread.
#[derive(Drop)]
pub struct Shutter {
    waker: Waker,
    is_shut: AtomicBool,
}

/// A connection that has come in. It can't be dropped, only taken apart.
pub struct Arrived {
    /// Its stream.
    pub stream: Fresh,
    /// The number of its door.
    pub door: usize,
}

/// A connection, or why the system gives none.
pub type Accepted = io::Result<Arrived>;

impl Shutter {
    /// Has the entrance take no more connections than those that wait.
    pub fn shut(&self) {
        self.is_shut.store(true, SeqCst);
        let _ = self.waker.wake();
    }

    /// Whether it was told to.
    pub fn is_shut(&self) -> bool {
        self.is_shut.load(SeqCst)
    }
}

impl<G: Drop> Entrance<G> {
    /// The entrance through these doors.
    pub fn open<R: Net>(rt: &R, alloc: Global, doors: Doors<G>) -> Result<Entrance<G>, WaitFault>
        ensures doors { IfOk result (λ entrance. doors_of entrance ≡ opened doors) }
        ensures taken { IfOk result (λ entrance. taken_of entrance ≡ 0) }
    {
        let Doors { doors } = doors;
        let poll = Poll::new(rt)?;
        let registry = poll.registry();
        for (number, door) in doors.iter().enumerate() {
            registry.register(
                &mut SourceFd(&door.descriptor()),
                Token(number),
                Interest::READABLE,
            )?;
        }
        let shutter = Shutter {
            waker: Waker::new(registry, Token(SHUTTER))?,
            is_shut: AtomicBool::new(false),
        };
        let Ok(shutter) = Arc::new(alloc, shutter) else {
            return Err(WaitFault::NoMemory);
        };
        Ok(Entrance {
            doors,
            next: 0,
            poll,
            events: Events::with_capacity(alloc, EVENTS)?,
            shutter,
            waiting: WAITING_MAX,
            taken: 0,
        })
    }

    /// What shuts it.
    pub fn shutter(&self) -> &Arc<Shutter, Global> {
        &self.shutter
    }

    /// What a door gives to its connections.
    pub fn gift(&self, door: usize) -> &G
        requires { door < length (doors_of self.now) }
        ensures { IsGiftAt (doors_of self.now) door result.now }
    {
        self.doors[door].gift()
    }

    /// How many connections have come in.
    pub fn taken(&self) -> u64
        ensures { result ≡ taken_of self.now }
    {
        self.taken
    }

    /// The next connection, or why the system gives none. Once the entrance is shut, there are only
    /// those that wait already, up to the first fault, and none at a door that another process has
    /// too.
    pub fn accept<R: Wait>(&mut self, rt: &R) -> Option<Accepted>
        ensures doors { doors_of self.new ≡ doors_of self.old }
        ensures through { IsThroughOneOf (doors_of self.new) result }
        ensures counts { CountsArrived result (taken_of self.old) (taken_of self.new) }
    {
        let accepted = self.await_next(rt);
        match &accepted {
            Some(Ok(_)) => self.taken = self.taken.saturating_add(1),
            Some(Err(_)) | None => {}
        }
        accepted
    }

    /// The same, before it is counted.
    fn await_next<R: Wait>(&mut self, rt: &R) -> Option<Accepted>
        ensures doors { doors_of self.new ≡ doors_of self.old }
        ensures through { IsThroughOneOf (doors_of self.old) result }
        ensures taken { self.new.taken ≡ self.old.taken }
    {
        for _ in rt.forever() {
            if self.doors.is_empty() {
                return None;
            }
            if self.shutter.is_shut() {
                return self.take_waiting(rt);
            }
            if let Some(accepted) = self.try_doors(rt, false) {
                return Some(accepted);
            }
            if let Err(fault) = self.poll.poll(&mut self.events, None) {
                return Some(Err(fault));
            }
        }
        unreachable!()
    }

    /// The next connection that waits, while it may be taken. Behind a fault none is.
    fn take_waiting<R: Wait>(&mut self, rt: &R) -> Option<Accepted>
        ensures doors { doors_of self.new ≡ doors_of self.old }
        ensures through { IsThroughOwn (doors_of self.old) result }
        ensures waiting { CountsDown result self.old.waiting self.new.waiting }
        ensures taken { self.new.taken ≡ self.old.taken }
    {
        self.waiting = self.waiting.checked_sub(1)?;
        let accepted = self.try_doors(rt, true)?;
        if accepted.is_err() {
            self.waiting = 0;
        }
        Some(accepted)
    }

    /// What waits at the first door that has something, from the next one on. So no door keeps
    /// another from its turn. Doors of its own alone are looked at where that is asked for.
    fn try_doors<R: Wait>(&mut self, rt: &R, is_own: bool) -> Option<Accepted>
        ensures doors { doors_of self.new ≡ doors_of self.old }
        ensures through { IsThroughOneOf (doors_of self.old) result }
        ensures own { IsTrue is_own → IsThroughOwn (doors_of self.old) result }
        ensures waiting { self.new.waiting ≡ self.old.waiting }
        ensures taken { self.new.taken ≡ self.old.taken }
    {
        for _ in 0..self.doors.len() {
            let number = if self.next < self.doors.len() {
                self.next
            } else {
                0
            };
            self.next = number.saturating_add(1);
            let door = &self.doors[number];
            if is_own && door.is_shared() {
                continue;
            }
            match door.accept(rt) {
                None => {}
                Some(Err(fault)) => return Some(Err(fault)),
                Some(Ok(stream)) => {
                    return Some(Ok(Arrived {
                        stream,
                        door: number,
                    }));
                }
            }
        }
        None
    }

    /// Closes the sockets. Whoever waits there is refused, unless another process listens there
    /// too.
    pub fn close(&mut self)
        ensures doors { doors_of self.new ≡ [] }
        ensures taken { taken_of self.new ≡ taken_of self.old }
    {
        self.doors.clear();
    }
}
