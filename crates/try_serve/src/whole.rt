//! Many connections and workers at once, from their start to their end.

use crate::clock::FixedClock;
use crate::fault::RunFault;
use crate::report::tally_text;
use crate::requests::{Asked, requests_of};
use crate::streams::key_table;
use mac_board::{FixedTables, TimedTables};
use mac_decide::Rights;
use mac_keys::KeyTable;
use mac_pool::Tally;
use mac_serve::{Caller, serve_all};
use mac_wire::{MemSink, MemSource, Version};
use std::alloc::Global;
use std::sync::Wait;
use std::thread::Threads;

/// How many requests come on each connection.
const REQUESTS: u64 = 50;

/// How many bytes a connection reads at a time, and how many it writes.
const PIECE: usize = 1_009;

type Outlooks<'a> = TimedTables<FixedTables<'a>, FixedClock>;

type Guest<'a> = Caller<MemSource, MemSink, Outlooks<'a>>;

/// So many connections at once, by so many workers, beside their answers made one after the other.
pub(crate) fn whole_told<R>(
    rt: &R,
    alloc: Global,
    workers: usize,
    connections: usize,
) -> Result<String, RunFault>
where
    R: Threads + Wait + Sync + Copy + Send + 'static,
{
    let keys = key_table(alloc)?;
    let mut guests = Vec::new(alloc);
    let mut due = Vec::new(alloc);
    for number in 0..connections {
        let asked = requests_of(
            alloc,
            &keys,
            version_of(number),
            REQUESTS,
            (number as u64).wrapping_add(77),
        )?;
        let Asked {
            stream,
            due: text,
            ..
        } = asked;
        guests.push(guest_of(alloc, &keys, stream, text.len())?)?;
        due.push(text)?;
    }
    let tally = served(rt, alloc, workers, guests.as_mut_slice())?;
    let met = count_met(guests.as_slice(), due.as_slice());
    let books = tally_text(alloc, tally)?;
    Ok(format!(in alloc; "{} {} connections as due", books.as_str(), met)?)
}

/// Every third connection is of version two.
fn version_of(number: usize) -> Version {
    if number % 3 == 2 {
        Version::Two
    } else {
        Version::One
    }
}

/// A connection on which this stream comes, and so many bytes may go.
fn guest_of<'a>(
    alloc: Global,
    keys: &'a KeyTable,
    stream: Vec<u8>,
    room: usize,
) -> Result<Guest<'a>, RunFault> {
    let sink = MemSink::new(alloc, room, PIECE, 0)?;
    let outlook = TimedTables::new(FixedTables(keys), FixedClock::new());
    Ok(Caller::new(
        MemSource::new(stream, PIECE, 0),
        sink,
        outlook,
        Rights::all(),
    ))
}

/// Serves all, and tells the books.
fn served<R>(rt: &R, alloc: Global, workers: usize, guests: &mut [Guest]) -> Result<Tally, RunFault>
where
    R: Threads + Wait + Sync + Copy + Send + 'static,
{
    match serve_all(rt, alloc, workers, guests) {
        Ok(finished) => Ok(finished.tally),
        Err(_) => Err(RunFault::Refused),
    }
}

/// How many connections ended well, and wrote what is due there.
fn count_met(guests: &[Guest], due: &[Vec<u8>]) -> usize {
    let mut met: usize = 0;
    for (guest, text) in guests.iter().zip(due) {
        if is_met(guest, text.as_slice()) {
            met = met.saturating_add(1);
        }
    }
    met
}

fn is_met(guest: &Guest, due: &[u8]) -> bool {
    match &guest.told {
        Some(told) => {
            told.fault.is_none()
                && told.arrived == REQUESTS
                && told.sent == REQUESTS
                && guest.sink.bytes() == due
        }
        None => false,
    }
}
