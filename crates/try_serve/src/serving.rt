//! Serving over memory: pools, and connections with their desks.

ghost use Rattle.std.specs.Prelude.{◌≡◌, ◌≤◌, IfOk};

use crate::clock::FixedClock;
use crate::fault::RunFault;
use crate::report::{Report, outcome_text};
use crate::streams::{key_table, stream_of};
use mac_board::{FixedTables, TimedTables};
use mac_decide::{Macaroons, Rights};
use mac_keys::KeyTable;
use mac_pool::{Desk, Pool, Tally};
use mac_serve::{ServeFault, Served, serve};
use mac_wire::{MemSink, MemSource, Session, Sink, Source};
use std::alloc::Global;
use std::sync::Wait;
use std::thread::Threads;

/// How many bytes a memory sink has room for, at least.
pub(crate) const ROOM: usize = 1_000;

/// The devices of a connection.
#[derive(Drop)]
pub(crate) struct Devices {
    pub source: MemSource,
    pub sink: MemSink,
}

impl Devices {
    /// Those of a stream, which read and write in pieces of so many bytes.
    pub(crate) fn new(
        alloc: Global,
        stream: Vec<u8>,
        room: usize,
        piece: usize,
    ) -> Result<Devices, RunFault>
        requires { 1 ≤ piece }
    {
        let source = MemSource::new(stream, piece, 0);
        let sink = MemSink::new(alloc, room, piece, 0)?;
        Ok(Devices { source, sink })
    }
}

/// A connection that is to be served: its devices, and its desk.
#[derive(Drop)]
pub(crate) struct Caller<'a> {
    pub devices: &'a mut Devices,
    pub desk: Desk<Macaroons>,
}

/// What a connection told, and its desk.
#[derive(Drop)]
pub(crate) struct Told {
    pub report: Report,
    pub desk: Desk<Macaroons>,
}

/// A pool of so many workers, if the system gives them.
pub(crate) fn pool_of<R>(rt: &R, alloc: Global, workers: usize) -> Result<Pool<Macaroons>, RunFault>
where
    R: Threads + Wait + Copy + Send + 'static,
{
    match Pool::start(rt, alloc, workers) {
        Ok(pool) => Ok(pool),
        Err(_) => Err(RunFault::Refused),
    }
}

/// A desk, if there is memory.
pub(crate) fn desk_of(
    alloc: Global,
    pool: &mut Pool<Macaroons>,
) -> Result<Desk<Macaroons>, RunFault>
    ensures queue { pool.new.queue ≡ pool.old.queue }
    ensures at { IfOk result (λ desk. desk.putter.queue ≡ pool.old.queue) }
{
    match pool.desk(alloc) {
        Ok(desk) => Ok(desk),
        Err(_) => Err(RunFault::Refused),
    }
}

/// The books of a pool that ends now.
pub(crate) fn books<R: Threads + Wait>(rt: &R, pool: Pool<Macaroons>) -> Result<Tally, RunFault> {
    match pool.stop(rt) {
        Ok(tally) => Ok(tally),
        Err(_) => Err(RunFault::Wrong),
    }
}

/// Serves a connection at a desk.
fn served<R: Threads + Wait + Sync, In: Source, Out: Sink>(
    rt: &R,
    alloc: Global,
    source: &mut In,
    sink: &mut Out,
    keys: &KeyTable,
    desk: Desk<Macaroons>,
) -> Told
    ensures { result.desk.putter.queue ≡ desk.putter.queue }
{
    let mut outlook = TimedTables::new(FixedTables(keys), FixedClock::new());
    match serve(
        rt,
        alloc,
        source,
        sink,
        &mut outlook,
        &Rights::all(),
        desk,
        Session::new(alloc),
    ) {
        Ok(served) => told_by(None, served),
        Err((fault, served)) => told_by(Some(fault), served),
    }
}

fn told_by(fault: Option<ServeFault>, served: Served) -> Told
    ensures { result.desk ≡ served.desk }
{
    let Served {
        arrived,
        sent,
        written,
        ending,
        desk,
        session: _,
    } = served;
    let report = Report {
        fault,
        ending,
        arrived,
        sent,
        written,
    };
    Told { report, desk }
}

/// What was told of connections, and the books of their pool. A refusal goes first: where a desk
/// was refused, another may have been dropped, and the books are wrong.
pub(crate) fn with_books<T: Copy>(
    told: Result<T, RunFault>,
    books: Result<Tally, RunFault>,
) -> Result<(T, Tally), RunFault> {
    Ok((told?, books?))
}

/// Serves a connection by a pool of its own.
pub(crate) fn by_a_pool<R, In: Source, Out: Sink>(
    rt: &R,
    alloc: Global,
    workers: usize,
    source: &mut In,
    sink: &mut Out,
) -> Result<(Report, Tally), RunFault>
where
    R: Threads + Wait + Sync + Copy + Send + 'static,
{
    let keys = key_table(alloc)?;
    let mut pool = pool_of(rt, alloc, workers)?;
    let told = at_a_desk(rt, alloc, &keys, &mut pool, source, sink);
    with_books(told, books(rt, pool))
}

/// Serves a connection at a desk of the pool.
fn at_a_desk<R: Threads + Wait + Sync, In: Source, Out: Sink>(
    rt: &R,
    alloc: Global,
    keys: &KeyTable,
    pool: &mut Pool<Macaroons>,
    source: &mut In,
    sink: &mut Out,
) -> Result<Report, RunFault> {
    let desk = desk_of(alloc, pool)?;
    let told = served(rt, alloc, source, sink, keys, desk);
    pool.home(told.desk);
    Ok(told.report)
}

/// Serves a connection to its end.
pub(crate) fn attended<R: Threads + Wait + Sync>(
    rt: &R,
    alloc: Global,
    keys: &KeyTable,
    caller: Caller,
) -> Told
    ensures { result.desk.putter.queue ≡ caller.entry.desk.putter.queue }
{
    let Caller { devices, desk } = caller;
    served(
        rt,
        alloc,
        &mut devices.source,
        &mut devices.sink,
        keys,
        desk,
    )
}

/// Serves two connections at once.
pub(crate) fn both_attended<R: Threads + Wait + Sync>(
    rt: &R,
    alloc: Global,
    keys: &KeyTable,
    one: Caller,
    other: Caller,
) -> (Told, Told)
    ensures one { result.0.desk.putter.queue ≡ one.entry.desk.putter.queue }
    ensures other { result.1.desk.putter.queue ≡ other.entry.desk.putter.queue }
{
    std::thread::join(
        rt,
        move || -> Told
            ensures { result.desk.putter.queue ≡ one.entry.desk.putter.queue }
        { attended(rt, alloc, keys, one) },
        move || -> Told
            ensures { result.desk.putter.queue ≡ other.entry.desk.putter.queue }
        { attended(rt, alloc, keys, other) },
    )
}

/// What comes of a stream by so many workers, read and written in pieces of so many bytes.
pub(crate) fn stream_told<R>(
    rt: &R,
    alloc: Global,
    name: &str,
    workers: usize,
    piece: usize,
) -> Result<String, RunFault>
where
    R: Threads + Wait + Sync + Copy + Send + 'static,
{
    let mut devices = Devices::new(alloc, stream_of(alloc, name)?, ROOM, piece.max(1))?;
    let Devices { source, sink } = &mut devices;
    let (report, tally) = by_a_pool(rt, alloc, workers, source, sink)?;
    outcome_text(alloc, tally, report, devices.sink.bytes())
}
