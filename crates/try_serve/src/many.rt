//! Several connections at one pool.

ghost use Rattle.std.specs.Prelude.{◌≡◌};

use crate::fault::RunFault;
use crate::report::{Report, outcome_text, report_text, tally_text};
use crate::requests::{Asked, Kinds, requests_of};
use crate::serving::{
    Caller, Devices, ROOM, Told, attended, books, both_attended, desk_of, pool_of, with_books,
};
use crate::streams::{key_table, stream_of};
use mac_decide::Macaroons;
use mac_keys::KeyTable;
use mac_pool::{Pool, Tally};
use mac_wire::Version;
use std::alloc::Global;
use std::sync::Wait;
use std::thread;
use std::thread::Threads;

/// How many bytes a connection of many requests reads at a time, and how many it writes.
const PIECE: usize = 10_007;

/// What comes of two streams at once, by two workers.
pub(crate) fn two_told<R>(rt: &R, alloc: Global, one: &str, other: &str) -> Result<String, RunFault>
where
    R: Threads + Wait + Sync + Copy + Send + 'static,
{
    let mut first = Devices::new(alloc, stream_of(alloc, one)?, ROOM, 1)?;
    let mut second = Devices::new(alloc, stream_of(alloc, other)?, ROOM, 1)?;
    let (reports, tally) = two_by_a_pool(rt, alloc, &mut first, &mut second)?;
    two_text(
        alloc,
        tally,
        reports,
        first.sink.bytes(),
        second.sink.bytes(),
    )
}

/// The books of a pool, and what its two connections told and wrote.
fn two_text(
    alloc: Global,
    tally: Tally,
    reports: (Report, Report),
    first: &[u8],
    second: &[u8],
) -> Result<String, RunFault> {
    let before = outcome_text(alloc, tally, reports.0, first)?;
    let behind = report_text(alloc, reports.1, second)?;
    Ok(format!(in alloc; "{}; {}", before.as_str(), behind.as_str())?)
}

/// Serves two connections by a pool of two workers.
fn two_by_a_pool<R>(
    rt: &R,
    alloc: Global,
    one: &mut Devices,
    other: &mut Devices,
) -> Result<((Report, Report), Tally), RunFault>
where
    R: Threads + Wait + Sync + Copy + Send + 'static,
{
    let keys = key_table(alloc)?;
    let mut pool = pool_of(rt, alloc, 2)?;
    let told = two_at_desks(rt, alloc, &keys, &mut pool, one, other);
    with_books(told, books(rt, pool))
}

/// Serves two connections at desks of the pool.
fn two_at_desks<R: Threads + Wait + Sync>(
    rt: &R,
    alloc: Global,
    keys: &KeyTable,
    pool: &mut Pool<Macaroons>,
    one: &mut Devices,
    other: &mut Devices,
) -> Result<(Report, Report), RunFault> {
    let first = Caller {
        devices: one,
        desk: desk_of(alloc, pool)?,
    };
    let second = Caller {
        devices: other,
        desk: desk_of(alloc, pool)?,
    };
    let (first, second) = both_attended(rt, alloc, keys, first, second);
    pool.home(first.desk);
    pool.home(second.desk);
    Ok((first.report, second.report))
}

/// So many requests that look random over three connections, of which the last is of version two,
/// by four workers, beside their answers made one after the other.
pub(crate) fn many_told<R>(
    rt: &R,
    alloc: Global,
    requests: u64,
    seed: u64,
) -> Result<String, RunFault>
where
    R: Threads + Wait + Sync + Copy + Send + 'static,
{
    let keys = key_table(alloc)?;
    let mut asking = three_asking(alloc, &keys, requests, seed)?;
    let (reports, tally) = three_by_a_pool(rt, alloc, &keys, &mut asking)?;
    many_text(alloc, tally, asking.kinds(), asking.are_met(reports))
}

/// The books of a pool, and that all replies were as due.
fn many_text(alloc: Global, tally: Tally, kinds: Kinds, are_met: bool) -> Result<String, RunFault> {
    if !are_met || !kinds.are_mixed() {
        return Err(RunFault::Wrong);
    }
    let books = tally_text(alloc, tally)?;
    Ok(format!(in alloc; "{} {} replies as due", books.as_str(), kinds.count())?)
}

/// What three connections told.
#[derive(Clone, Copy)]
struct ThreeReports {
    one: Report,
    two: Report,
    three: Report,
}

/// Three connections, and what is due there.
#[derive(Drop)]
struct ThreeAsking {
    one: Asking,
    two: Asking,
    three: Asking,
}

impl ThreeAsking {
    fn kinds(&self) -> Kinds {
        self.one.kinds.and(self.two.kinds).and(self.three.kinds)
    }

    /// Whether all connections ended well, and wrote what is due.
    fn are_met(&self, reports: ThreeReports) -> bool {
        self.one.is_met(reports.one)
            && self.two.is_met(reports.two)
            && self.three.is_met(reports.three)
    }
}

/// A connection, and what is due there.
#[derive(Drop)]
struct Asking {
    devices: Devices,
    due: Vec<u8>,
    kinds: Kinds,
}

impl Asking {
    /// Whether the connection ended well, and wrote what is due.
    fn is_met(&self, report: Report) -> bool {
        report.fault.is_none()
            && report.arrived == self.kinds.count()
            && report.sent == self.kinds.count()
            && self.devices.sink.bytes() == self.due.as_slice()
    }
}

/// Connections of so many requests that look random, and what is due there.
fn three_asking(
    alloc: Global,
    keys: &KeyTable,
    requests: u64,
    seed: u64,
) -> Result<ThreeAsking, RunFault> {
    let share = requests / 3;
    let rest = requests - 2 * share;
    let one = asking_for(alloc, keys, Version::One, share, seed)?;
    let two = asking_for(alloc, keys, Version::One, share, seed ^ 0x5555)?;
    let three = asking_for(alloc, keys, Version::Two, rest, seed ^ 0xaaaa)?;
    Ok(ThreeAsking { one, two, three })
}

/// A connection of so many requests that look random, and what is due there.
fn asking_for(
    alloc: Global,
    keys: &KeyTable,
    version: Version,
    count: u64,
    seed: u64,
) -> Result<Asking, RunFault> {
    let Asked {
        stream,
        due,
        kinds,
        ..
    } = requests_of(alloc, keys, version, count, seed)?;
    let devices = Devices::new(alloc, stream, due.len(), PIECE)?;
    Ok(Asking {
        devices,
        due,
        kinds,
    })
}

/// Serves three connections by a pool of four workers.
fn three_by_a_pool<R>(
    rt: &R,
    alloc: Global,
    keys: &KeyTable,
    asking: &mut ThreeAsking,
) -> Result<(ThreeReports, Tally), RunFault>
where
    R: Threads + Wait + Sync + Copy + Send + 'static,
{
    let mut pool = pool_of(rt, alloc, 4)?;
    let told = three_at_desks(rt, alloc, keys, &mut pool, asking);
    with_books(told, books(rt, pool))
}

/// Serves three connections at desks of the pool.
fn three_at_desks<R: Threads + Wait + Sync>(
    rt: &R,
    alloc: Global,
    keys: &KeyTable,
    pool: &mut Pool<Macaroons>,
    asking: &mut ThreeAsking,
) -> Result<ThreeReports, RunFault> {
    let ThreeAsking { one, two, three } = asking;
    let one = Caller {
        devices: &mut one.devices,
        desk: desk_of(alloc, pool)?,
    };
    let two = Caller {
        devices: &mut two.devices,
        desk: desk_of(alloc, pool)?,
    };
    let three = Caller {
        devices: &mut three.devices,
        desk: desk_of(alloc, pool)?,
    };
    let (one, two, three) = three_attended(rt, alloc, keys, one, two, three);
    pool.home(one.desk);
    pool.home(two.desk);
    pool.home(three.desk);
    Ok(ThreeReports {
        one: one.report,
        two: two.report,
        three: three.report,
    })
}

/// Serves three connections at once.
fn three_attended<R: Threads + Wait + Sync>(
    rt: &R,
    alloc: Global,
    keys: &KeyTable,
    one: Caller,
    two: Caller,
    three: Caller,
) -> (Told, Told, Told)
    ensures one { result.0.desk.putter.queue ≡ one.entry.desk.putter.queue }
    ensures two { result.1.desk.putter.queue ≡ two.entry.desk.putter.queue }
    ensures three { result.2.desk.putter.queue ≡ three.entry.desk.putter.queue }
{
    let (one, others) = thread::join(
        rt,
        move || -> Told
            ensures { result.desk.putter.queue ≡ one.entry.desk.putter.queue }
        { attended(rt, alloc, keys, one) },
        move || -> (Told, Told)
            ensures two { result.0.desk.putter.queue ≡ two.entry.desk.putter.queue }
            ensures three { result.1.desk.putter.queue ≡ three.entry.desk.putter.queue }
        { both_attended(rt, alloc, keys, two, three) },
    );
    (one, others.0, others.1)
}
