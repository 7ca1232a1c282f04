//! Two frames that are cut at each byte, and devices that fail at each call.

use crate::fault::RunFault;
use crate::report::fault_number;
use crate::serving::{ROOM, by_a_pool};
use crate::streams::Exchange;
use crate::table::{Row, Table};
use mac_wire::{MemSink, MemSource, Sink, Source, Version};
use std::alloc::Global;
use std::sync::Wait;
use std::thread::Threads;

/// How many workers each pool has.
const WORKERS: usize = 2;

/// The two frames cut to each number of bytes.
pub(crate) fn cuts_told<R>(rt: &R, alloc: Global, version: Version) -> Result<String, RunFault>
where
    R: Threads + Wait + Sync + Copy + Send + 'static,
{
    let Exchange { stream, replies } = Exchange::of_two(alloc, version)?;
    let mut table = Table::new(alloc, 0);
    for length in 0..=stream.len() {
        let row = row_of(rt, alloc, &stream[..length], &replies, 0, 0)?;
        table.push(alloc, length as u64, row)?;
    }
    Ok(table.finish(alloc)?)
}

/// The source fails at each of its calls.
pub(crate) fn reads_told<R>(rt: &R, alloc: Global, version: Version) -> Result<String, RunFault>
where
    R: Threads + Wait + Sync + Copy + Send + 'static,
{
    let Exchange { stream, replies } = Exchange::of_two(alloc, version)?;
    let mut table = Table::new(alloc, 0);
    for call in 1..=stream.len() as u64 + 1 {
        let row = row_of(rt, alloc, &stream, &replies, call, 0)?;
        table.push(alloc, call, row)?;
    }
    Ok(table.finish(alloc)?)
}

/// The sink fails at each of its calls.
pub(crate) fn writes_told<R>(rt: &R, alloc: Global, version: Version) -> Result<String, RunFault>
where
    R: Threads + Wait + Sync + Copy + Send + 'static,
{
    let Exchange { stream, replies } = Exchange::of_two(alloc, version)?;
    let mut table = Table::new(alloc, 1);
    for call in 1..=replies.len() as u64 {
        let row = row_of(rt, alloc, &stream, &replies, 0, call)?;
        table.push(alloc, call, row)?;
    }
    Ok(table.finish(alloc)?)
}

/// What comes of a stream of which each call passes one byte, and whose devices fail at these
/// calls.
fn row_of<R>(
    rt: &R,
    alloc: Global,
    stream: &[u8],
    replies: &[u8],
    failing_read: u64,
    failing_write: u64,
) -> Result<Row, RunFault>
where
    R: Threads + Wait + Sync + Copy + Send + 'static,
{
    let mut source = MemSource::new(Vec::from_slice(alloc, stream)?, 1, failing_read);
    let mut sink = MemSink::new(alloc, ROOM, 1, failing_write)?;
    let (report, _) = by_a_pool(rt, alloc, WORKERS, &mut source, &mut sink)?;
    let bytes = sink.bytes();
    if bytes.len() as u64 != report.written || !replies.starts_with(bytes) {
        return Err(RunFault::Wrong);
    }
    Ok(Row {
        fault: fault_number(report.fault),
        ending: report.ending,
        sent: report.sent,
        written: report.written,
        reads_failed: source.faults(),
        writes_failed: sink.faults(),
    })
}
