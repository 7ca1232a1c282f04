//! The list of connections that a daemon has, for who asks. No contract speaks of it.

use crate::badge::{Life, Socket};
use crate::clock::microseconds;
use crossbeam_queue::ArrayQueue;
use mac_log::{Fields, Key};
use std::alloc::{AllocError, Global};
use std::sync::atomic::Ordering::SeqCst;
use std::sync::atomic::{AtomicBool, AtomicU64};
use std::sync::{Arc, Wait};
use std::time::Clock;

/// How many connections are listed at most. Further ones are served all the same.
const LISTED_MAX: u64 = 65_536;

/// A place of the list. No lock guards it: what it shows together need not have been so at one
/// moment.
#[derive(Drop)]
struct Row {
    // The connection's number, or 0 where nobody has the place.
    number: AtomicU64,
    // When it was accepted, in microseconds.
    accepted: AtomicU64,
    // The number of the socket that it came in through.
    door: AtomicU64,
    is_wide: AtomicBool,
    answered: AtomicU64,
    unsent: AtomicU64,
}

/// Places for the connections of a daemon.
#[derive(Drop)]
pub struct Roster {
    rows: Vec<Row>,
    free: ArrayQueue<usize>,
    // The paths of the daemon's sockets.
    sockets: Vec<String>,
}

impl Row {
    fn free() -> Row {
        Row {
            number: AtomicU64::new(0),
            accepted: AtomicU64::new(0),
            door: AtomicU64::new(0),
            is_wide: AtomicBool::new(false),
            answered: AtomicU64::new(0),
            unsent: AtomicU64::new(0),
        }
    }
}

impl Roster {
    /// A list with places for so many connections, or for fewer where those are more than are
    /// listed. They come in through sockets at these paths.
    pub fn new<R: Wait>(
        rt: &R,
        alloc: Global,
        connections: u64,
        sockets: Vec<String>,
    ) -> Result<Arc<Roster, Global>, AllocError> {
        let count = connections.min(LISTED_MAX).max(1) as usize;
        let mut rows = Vec::with_capacity(alloc, count)?;
        let free = ArrayQueue::new(alloc, count)?;
        for place in 0..count {
            rows.push(Row::free())?;
            let _ = free.push(rt, place);
        }
        let roster = Roster {
            rows,
            free,
            sockets,
        };
        Ok(Arc::new(alloc, roster)?)
    }

    /// Gives a connection a place, if there is one.
    pub fn enter<R: Wait>(
        &self,
        rt: &R,
        number: u64,
        accepted: u64,
        socket: Socket,
    ) -> Option<usize> {
        let place = self.free.pop(rt)?;
        let row = self.rows.get(place)?;
        row.accepted.store(accepted, SeqCst);
        row.door.store(socket.door() as u64, SeqCst);
        row.is_wide.store(false, SeqCst);
        row.answered.store(0, SeqCst);
        row.unsent.store(0, SeqCst);
        row.number.store(number, SeqCst);
        Some(place)
    }

    /// Frees the place of a connection, where it has one.
    pub fn leave<R: Wait>(&self, rt: &R, life: Life) {
        if let Some((place, row)) = self.row_of(life) {
            row.number.store(0, SeqCst);
            let _ = self.free.push(rt, place);
        }
    }

    /// Notes what a connection has come to.
    pub fn see(&self, life: Life, unsent: usize) {
        if let Some((_, row)) = self.row_of(life) {
            row.answered.store(life.answered, SeqCst);
            row.unsent.store(unsent as u64, SeqCst);
        }
    }

    /// Notes whether a connection waits for a worker's answer.
    pub fn set_wide(&self, life: Life, is_wide: bool) {
        if let Some((_, row)) = self.row_of(life) {
            row.is_wide.store(is_wide, SeqCst);
        }
    }

    /// Appends a line for each connection of the list.
    pub fn append_lines<R: Clock>(
        &self,
        rt: &R,
        alloc: Global,
        text: &mut Vec<u8>,
    ) -> Result<(), AllocError> {
        let now = microseconds(rt);
        for row in &self.rows {
            row.append_line(now, alloc, &self.sockets, text)?;
        }
        Ok(())
    }

    fn row_of(&self, life: Life) -> Option<(usize, &Row)> {
        let place = life.badge.place?;
        let row = self.rows.get(place)?;
        Some((place, row))
    }
}

impl Row {
    /// Appends the line of the connection that has this place, if one has it.
    fn append_line(
        &self,
        now: u64,
        alloc: Global,
        sockets: &[String],
        text: &mut Vec<u8>,
    ) -> Result<(), AllocError> {
        let number = self.number.load(SeqCst);
        if number == 0 {
            return Ok(());
        }
        let fields = self.fields(number, now, alloc, sockets)?;
        text.extend_from_slice(fields.as_slice().trim_ascii_start())?;
        text.extend_from_slice(b"\n")
    }

    fn fields(
        &self,
        number: u64,
        now: u64,
        alloc: Global,
        sockets: &[String],
    ) -> Result<Fields, AllocError> {
        let form: &[u8] = if self.is_wide.load(SeqCst) {
            b"wide"
        } else {
            b"plain"
        };
        let micros = now.saturating_sub(self.accepted.load(SeqCst));
        let mut fields = Fields::new(alloc).with_number(alloc, Key::Connection, number)?;
        if let Some(socket) = sockets.get(self.door.load(SeqCst) as usize) {
            fields = fields.with_text(Key::Socket, socket.as_bytes())?;
        }
        fields
            .with_number(alloc, Key::Millis, micros / 1_000)?
            .with_number(alloc, Key::Requests, self.answered.load(SeqCst))?
            .with_number(alloc, Key::Unsent, self.unsent.load(SeqCst))?
            .with_text(Key::Form, form)
    }
}
