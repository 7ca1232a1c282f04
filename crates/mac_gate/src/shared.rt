//! What the threads of a server share: its connections, and whether it ends.

use crate::limit::Limit;
use crate::terms::Bounds;
use mac_host::{DISPLACING_MAX, Host};
use mac_sockets::{Fresh, Inbox, Shutter};
use mio::Waker;
use std::alloc::{AllocError, Global};
use std::io;
use std::sync::atomic::Ordering::SeqCst;
use std::sync::atomic::{AtomicBool, AtomicU64, AtomicUsize};
use std::sync::{Arc, Mutex, Wait};
use std::time::Clock;

/// A connection that is handed to a loop.
#[derive(Drop)]
pub struct Newcomer {
    pub stream: Fresh,
    /// Whether one of the loop's connections is to give way to it.
    pub displaces: bool,
}

/// A loop, as others see it.
#[derive(Drop)]
struct LoopSide {
    inbox: Inbox<Newcomer>,
    // How many connections the loop has.
    count: AtomicUsize,
    // When something was sent to the one of them that was sent nothing for longest, in
    // microseconds, as far as the loop looked.
    stalest: AtomicU64,
}

/// What the threads of a server share.
#[derive(Drop)]
pub struct Shared {
    limit: Mutex<Limit>,
    // Those that come in place of others, until their loops have taken them.
    displacing: Mutex<Limit>,
    // Whether connections give way to further ones.
    gives_way: bool,
    sides: Vec<LoopSide>,
    // It shuts where connections come in.
    shutter: Arc<Shutter, Global>,
    // Whether no further connection comes in.
    is_closed: AtomicBool,
    // The daemon, whose end waits for them.
    host: Host,
    alloc: Global,
}

impl Shared {
    /// That of a server with a loop for each of these wakers. Connections come in until the shutter
    /// is shut, as many at a time as its bounds say.
    pub fn new(
        alloc: Global,
        bounds: Bounds,
        host: Host,
        shutter: Arc<Shutter, Global>,
        wakers: Vec<Waker>,
    ) -> Result<Arc<Shared, Global>, AllocError> {
        let mut sides = Vec::with_capacity(alloc, wakers.len())?;
        for waker in wakers {
            sides.push(LoopSide {
                inbox: Inbox::new(alloc, waker)?,
                count: AtomicUsize::new(0),
                stalest: AtomicU64::new(u64::MAX),
            })?;
        }
        let shared = Shared {
            limit: Mutex::new(Limit::new(bounds.connections)),
            displacing: Mutex::new(Limit::new(DISPLACING_MAX)),
            gives_way: bounds.gives_way,
            sides,
            shutter,
            is_closed: AtomicBool::new(false),
            host,
            alloc,
        };
        Ok(Arc::new(alloc, shared)?)
    }

    /// Whether its connections are to end.
    pub fn is_ending(&self) -> bool {
        self.shutter.is_shut()
    }

    /// Its daemon.
    pub fn host(&self) -> &Host {
        &self.host
    }

    /// Logs that the system gave no connection.
    pub fn tell_refused<R: Wait + Clock>(&self, rt: &R, fault: io::Error) {
        if let Ok(text) = fault.to_string(self.alloc) {
            self.host.notices().tell_refused(rt, text.as_str());
        }
    }

    /// Has the end of the daemon shut it, and wait until it is closed.
    pub fn open<R: Wait>(&self, rt: &R) -> Result<(), AllocError> {
        self.host.open_server(rt, &self.shutter)
    }

    /// Tells the end of the daemon that no further connection comes in, and has each loop return
    /// behind its last one.
    pub fn close<R: Wait>(&self, rt: &R) {
        self.is_closed.store(true, SeqCst);
        self.wake_loops();
        self.host.close_server(rt);
    }

    /// Whether no further connection comes in.
    pub fn is_closed(&self) -> bool {
        self.is_closed.load(SeqCst)
    }

    /// Hands a connection to the loop that has the fewest. Where there are as many as there may be,
    /// it is handed to the one whose connections include the stalest, which gives way; or it is
    /// closed, where none does, and where there is no memory.
    pub fn enter<R: Wait>(&self, rt: &R, stream: Fresh) {
        if self.admits(rt) {
            let number = self.idlest();
            if let Some(side) = self.sides.get(number) {
                side.count.fetch_add(1, SeqCst);
            }
            let displaces = false;
            if !self.hand(rt, number, Newcomer { stream, displaces }) {
                self.leave(rt, number);
            }
        } else if self.gives_way && enters(rt, &self.displacing) {
            let displaces = true;
            if !self.hand(rt, self.stalest(), Newcomer { stream, displaces }) {
                leaves(rt, &self.displacing);
            }
        }
    }

    /// Whether there was memory to hand a connection to a loop.
    fn hand<R: Wait>(&self, rt: &R, number: usize, newcomer: Newcomer) -> bool {
        match self.sides.get(number) {
            Some(side) => side.inbox.push(rt, newcomer).is_ok(),
            None => false,
        }
    }

    /// The next connection that was handed to a loop.
    pub fn take<R: Wait>(&self, rt: &R, number: usize) -> Option<Newcomer> {
        let newcomer = match self.sides.get(number) {
            Some(side) => side.inbox.pop(rt)?,
            None => return None,
        };
        if newcomer.displaces {
            leaves(rt, &self.displacing);
        }
        Some(newcomer)
    }

    /// Notes when something was sent to the stalest connection of a loop, where it has any.
    pub fn note_stalest(&self, number: usize, since: Option<u64>) {
        if let Some(side) = self.sides.get(number) {
            side.stalest.store(since.unwrap_or(u64::MAX), SeqCst);
        }
    }

    /// Counts out a connection that has ended in a loop.
    pub fn leave<R: Wait>(&self, rt: &R, number: usize) {
        if let Some(side) = self.sides.get(number) {
            side.count.fetch_sub(1, SeqCst);
        }
        leaves(rt, &self.limit);
        self.host.leave(rt);
    }

    /// Takes no further connection, and ends those that are idle.
    pub fn end(&self) {
        self.shutter.shut();
        self.wake_loops();
    }

    /// Has a loop look at who was handed to it.
    pub fn wake(&self, number: usize) {
        if let Some(side) = self.sides.get(number) {
            side.inbox.wake();
        }
    }

    fn wake_loops(&self) {
        for side in self.sides.iter() {
            side.inbox.wake();
        }
    }

    /// The loop that has the fewest connections.
    fn idlest(&self) -> usize {
        let (mut idlest, mut fewest) = (0, usize::MAX);
        for (number, side) in self.sides.iter().enumerate() {
            let count = side.count.load(SeqCst);
            if count < fewest {
                (idlest, fewest) = (number, count);
            }
        }
        idlest
    }

    /// The loop whose connections include the stalest.
    fn stalest(&self) -> usize {
        let (mut found, mut earliest) = (0, u64::MAX);
        for (number, side) in self.sides.iter().enumerate() {
            let since = side.stalest.load(SeqCst);
            if since < earliest {
                (found, earliest) = (number, since);
            }
        }
        found
    }

    /// Counts a connection in, where there may be one more. Whether that was so.
    fn admits<R: Wait>(&self, rt: &R) -> bool {
        let is_admitted = enters(rt, &self.limit);
        if is_admitted {
            self.host.enter(rt);
        }
        is_admitted
    }
}

/// Counts one more, where there may be one. Whether that was so.
fn enters<R: Wait>(rt: &R, limit: &Mutex<Limit>) -> bool {
    let mut limit = limit.lock(rt);
    let limit = &mut *limit;
    limit.enter()
}

/// Counts one less.
fn leaves<R: Wait>(rt: &R, limit: &Mutex<Limit>) {
    let mut limit = limit.lock(rt);
    let limit = &mut *limit;
    limit.leave();
}
