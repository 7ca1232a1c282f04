//! What the daemon says on standard error while it runs: which line tells what.

use crate::badge::{Badge, Life};
use crate::clock::microseconds;
use crate::exchange::{Exchange, Logged};
use crate::minted::minted_fields;
use crate::requested::request_fields;
use mac_board::{KeyFileRefusal, ListNews, ListRefusal, News};
use mac_log::{Fields, Key, Kind, Log, NoMemory, start_log};
use std::alloc::Global;
use std::fmt::Display;
use std::io;
use std::sync::{Arc, Wait};
use std::thread::Threads;
use std::time::Clock;

/// How many milliseconds the daemon waits at its end until its last lines are printed.
const PATIENCE_MILLIS: u64 = 200;

/// Why a connection was ended that held most of the memory of all.
pub const HEAVY: &str =
    "it held most of the memory that connections have together, which is used up";

/// What a daemon serves, as it is told at its start.
#[derive(Clone, Copy)]
pub struct Beginning<'a> {
    /// The version of the program.
    pub version: &'a str,
    /// The path of its socket.
    pub socket: &'a str,
    /// The path of its second socket, where it has one.
    pub side: Option<&'a str>,
    /// How many names have a key.
    pub names: usize,
    /// How many workers it has.
    pub workers: usize,
    /// How many bytes of memory its connections and the tokens that it remembers may have together.
    pub memory: u64,
}

/// The log of a daemon. Who tells something waits for nobody.
#[derive(Drop)]
pub struct Notices {
    alloc: Global,
    // None prints nothing.
    log: Option<Arc<Log, Global>>,
    // What is told besides.
    logged: Logged,
}

impl Notices {
    /// Starts the thread that prints lines, each with its priority where systemd's journal reads
    /// them. What is logged besides is told too. Without a thread for it there is no log.
    pub fn start<R>(rt: R, alloc: Global, is_journal: bool, logged: Logged) -> Option<Notices>
    where
        R: Threads + Wait + Clock + Eprint + Copy + Send + 'static,
    {
        let log = start_log(rt, alloc, is_journal)?;
        Some(Notices {
            alloc,
            log: Some(log),
            logged,
        })
    }

    /// A log that prints nothing.
    pub fn none(alloc: Global) -> Notices {
        Notices {
            alloc,
            log: None,
            logged: Logged::NOTHING,
        }
    }

    /// The same log, for another thread.
    pub fn share(&self) -> Result<Notices, NoMemory> {
        let log = match &self.log {
            Some(log) => Some(Arc::try_clone(log)?),
            None => None,
        };
        Ok(Notices {
            alloc: self.alloc,
            log,
            logged: self.logged,
        })
    }

    fn post<R: Wait + Clock>(&self, rt: &R, kind: Kind, fields: Result<Fields, NoMemory>) {
        if let Some(log) = &self.log {
            log.post(rt, kind, fields);
        }
    }

    /// What is told besides.
    pub fn logged(&self) -> Logged {
        self.logged
    }

    /// Tells a request, the connection that it came on, and what it was answered: the token that it
    /// minted, the request, or both. One for which there was no memory is counted as left out.
    pub fn tell_exchange<R: Wait + Clock>(
        &self,
        rt: &R,
        badge: Option<Badge>,
        exchange: Result<Exchange, NoMemory>,
    ) {
        if self.logged.mints {
            self.tell_mint(rt, badge, &exchange);
        }
        if self.logged.tells_requests() {
            let fields = exchange.and_then(|exchange| exchange_fields(self.alloc, badge, exchange));
            self.post(rt, Kind::Request, fields);
        }
    }

    /// Tells the token that a request minted, if it did.
    fn tell_mint<R: Wait + Clock>(
        &self,
        rt: &R,
        badge: Option<Badge>,
        exchange: &Result<Exchange, NoMemory>,
    ) {
        match exchange {
            Ok(
                Exchange {
                    name,
                    minted: Some(identifier),
                    ..
                },
            ) => {
                let fields = connection_fields(self.alloc, badge).and_then(|fields| minted_fields(
                    fields, name, identifier,
                ));
                self.post(rt, Kind::Mint, fields);
            },
            Ok(_) => {},
            Err(refused) => self.post(rt, Kind::Mint, Err(*refused)),
        }
    }

    /// Tells that the daemon serves.
    pub fn tell_begin<R: Wait + Clock>(&self, rt: &R, beginning: Beginning<'_>) {
        let fields = beginning_fields(self.alloc, beginning);
        self.post(rt, Kind::Start, fields);
    }

    /// Tells why a connection ended that might have gone on, in a line of this kind.
    pub fn tell_parting<R: Wait + Clock, W: Display>(
        &self,
        rt: &R,
        life: Life,
        kind: Kind,
        why: &W,
    ) {
        let fields = parting_fields(rt, self.alloc, life, kind, why);
        self.post(rt, kind, fields);
    }

    /// Tells that a connection without a number was ended, since it held most of the memory of all.
    pub fn tell_heavy<R: Wait + Clock>(&self, rt: &R) {
        let fields = Fields::new(self.alloc).with_text(Key::Fault, HEAVY.as_bytes());
        self.post(rt, Kind::ConnectionFault, fields);
    }

    /// Tells that a connection was closed, since there are as many as this limit allows.
    pub fn tell_full<R: Wait + Clock>(&self, rt: &R, limit: &str, most: u64) {
        let fields = limit_fields(self.alloc, limit, most);
        self.post(rt, Kind::LimitReached, fields);
    }

    /// Tells that the limit of descriptors allows no more connections than so many.
    pub fn tell_low<R: Wait + Clock>(&self, rt: &R, most: u64) {
        let fields = limit_fields(self.alloc, "descriptors", most);
        self.post(rt, Kind::LimitLow, fields);
    }

    /// Tells that the system gave no connection.
    pub fn tell_refused<R: Wait + Clock>(&self, rt: &R, fault: &str) {
        let fields = Fields::new(self.alloc).with_text(Key::Fault, fault.as_bytes());
        self.post(rt, Kind::AcceptFault, fields);
    }

    /// Tells a step that the system refused, and that is made again or left out.
    pub fn tell_system<R: Wait + Clock, W: Display>(&self, rt: &R, step: &str, fault: &W) {
        let fields = system_fields(self.alloc, step, fault);
        self.post(rt, Kind::SystemFault, fields);
    }

    /// Tells what came of a look at the key file, if there is anything to be told.
    pub fn tell_keys<R: Wait + Clock>(&self, rt: &R, file: &str, news: News) {
        let (kind, fields) = match news {
            News::Nothing => return,
            News::Taken(names) => (Kind::KeysRead, taken_fields(self.alloc, file, names)),
            News::Refused(why) => (Kind::KeysRefused, refused_fields(self.alloc, file, why)),
        };
        self.post(rt, kind, fields);
    }

    /// Tells what came of a look at the list of tokens that were taken back, if there is anything
    /// to be told.
    pub fn tell_revoked<R: Wait + Clock>(&self, rt: &R, file: &str, news: ListNews) {
        let (kind, fields) = match news {
            ListNews::Nothing => return,
            ListNews::Taken(lines) => (Kind::RevokedRead, listed_fields(self.alloc, file, lines)),
            ListNews::Refused(why) => (
                Kind::RevokedRefused,
                unlisted_fields(self.alloc, file, why),
            ),
        };
        self.post(rt, kind, fields);
    }

    /// Tells that another daemon's socket is in the place of this one's.
    pub fn tell_replaced<R: Wait + Clock>(&self, rt: &R, path: &str) {
        let fields = Fields::new(self.alloc).with_text(Key::Socket, path.as_bytes());
        self.post(rt, Kind::Replaced, fields);
    }

    /// Tells that the daemon was told to end, and how many connections there are.
    pub fn tell_drain<R: Wait + Clock>(&self, rt: &R, left: u64) {
        let fields = Fields::new(self.alloc).with_number(self.alloc, Key::Connections, left);
        self.post(rt, Kind::Drain, fields);
    }

    /// Tells that the daemon ends, and how many connections are cut off. Waits for a moment at most
    /// until all lines are printed.
    pub fn tell_end<R: Wait + Clock>(&self, rt: &R, cut: u64) {
        let fields = Fields::new(self.alloc).with_number(self.alloc, Key::Connections, cut);
        self.post(rt, Kind::End, fields);
        if let Some(log) = &self.log {
            log.flush(rt, PATIENCE_MILLIS);
        }
    }
}

fn beginning_fields(alloc: Global, beginning: Beginning<'_>) -> Result<Fields, NoMemory> {
    let mut fields = Fields::new(alloc)
        .with_text(Key::Version, beginning.version.as_bytes())?
        .with_text(Key::Socket, beginning.socket.as_bytes())?;
    if let Some(side) = beginning.side {
        fields = fields.with_text(Key::Socket, side.as_bytes())?;
    }
    fields
        .with_number(alloc, Key::Names, beginning.names as u64)?
        .with_number(alloc, Key::Workers, beginning.workers as u64)?
        .with_number(alloc, Key::Memory, beginning.memory)
}

/// Which connection it was, how long it was there, what it was answered, and why it ended.
fn parting_fields<R: Clock, W: Display>(
    rt: &R,
    alloc: Global,
    life: Life,
    kind: Kind,
    why: &W,
) -> Result<Fields, NoMemory> {
    let micros = microseconds(rt).saturating_sub(life.badge.accepted);
    let fields = Fields::new(alloc)
        .with_number(alloc, Key::Connection, life.badge.number)?
        .with_number(alloc, Key::Millis, micros / 1_000)?
        .with_number(alloc, Key::Requests, life.answered)?;
    let why = why.to_string(alloc)?;
    match kind {
        Kind::ConnectionFault => fields.with_text(Key::Fault, why.as_bytes()),
        Kind::ConnectionDropped => fields.with_text(Key::Cause, why.as_bytes()),
        _ => Ok(fields),
    }
}

/// The number of a connection, where there is one.
fn connection_fields(alloc: Global, badge: Option<Badge>) -> Result<Fields, NoMemory> {
    match badge {
        Some(badge) => Fields::new(alloc).with_number(alloc, Key::Connection, badge.number),
        None => Ok(Fields::new(alloc)),
    }
}

/// What is told of a request, behind its connection.
fn exchange_fields(
    alloc: Global,
    badge: Option<Badge>,
    exchange: Exchange,
) -> Result<Fields, NoMemory> {
    let fields = connection_fields(alloc, badge)?;
    request_fields(alloc, fields, &exchange)
}

fn limit_fields(alloc: Global, limit: &str, most: u64) -> Result<Fields, NoMemory> {
    Fields::new(alloc)
        .with_text(Key::Limit, limit.as_bytes())?
        .with_number(alloc, Key::Connections, most)
}

fn system_fields<W: Display>(alloc: Global, step: &str, fault: &W) -> Result<Fields, NoMemory> {
    let why = format!(in alloc; "{step}: {fault}")?;
    Fields::new(alloc).with_text(Key::Fault, why.as_bytes())
}

fn taken_fields(alloc: Global, file: &str, names: usize) -> Result<Fields, NoMemory> {
    Fields::new(alloc)
        .with_text(Key::File, file.as_bytes())?
        .with_number(alloc, Key::Names, names as u64)
}

fn refused_fields(alloc: Global, file: &str, why: KeyFileRefusal) -> Result<Fields, NoMemory> {
    let why = why.to_string(alloc)?;
    Fields::new(alloc)
        .with_text(Key::File, file.as_bytes())?
        .with_text(Key::Fault, why.as_bytes())
}

fn listed_fields(alloc: Global, file: &str, lines: usize) -> Result<Fields, NoMemory> {
    Fields::new(alloc)
        .with_text(Key::File, file.as_bytes())?
        .with_number(alloc, Key::Count, lines as u64)
}

fn unlisted_fields(alloc: Global, file: &str, why: ListRefusal) -> Result<Fields, NoMemory> {
    let why = why.to_string(alloc)?;
    Fields::new(alloc)
        .with_text(Key::File, file.as_bytes())?
        .with_text(Key::Fault, why.as_bytes())
}
