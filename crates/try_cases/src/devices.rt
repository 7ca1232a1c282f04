//! Cases of `mac_wire`: devices.

use crate::case::{Case, CaseFault};
use mac_wire::{MemSink, MemSource, ReaderSource, Sink, Source, WriterSink, send_all};

/// Tells what a case comes to, if it is one of these kinds.
pub(crate) fn tells(case: &mut Case<'_>, kind: &str) -> bool {
    match kind {
        "reads" => memory_reads(case),
        "reader" => reader_reads(case),
        "sends" => memory_sends(case),
        "writes" => writer_writes(case),
        _ => return false,
    }
    true
}

/// The longest read of a case, in bytes.
const READ_MAX: usize = 8;

/// What eight reads of a source over memory give.
fn memory_reads(case: &mut Case<'_>) {
    let piece = case.number().max(1);
    let fails = case.number();
    let bytes = case.bytes();
    let mut source = MemSource::new(bytes, piece as usize, fails);
    say_reads(case, &mut source);
}

/// What eight reads of a source over a reader give.
fn reader_reads(case: &mut Case<'_>) {
    let bytes = case.bytes();
    let mut source = ReaderSource::new(bytes.as_slice());
    say_reads(case, &mut source);
}

fn say_reads<R: Source>(case: &mut Case<'_>, source: &mut R) {
    for _ in 0..8u8 {
        say_read(case, source);
    }
    case.say("faults ");
    case.say_number(source.faults());
}

/// Appends what a read into a small buffer gives: bytes, `end` or `fault`.
fn say_read<R: Source>(case: &mut Case<'_>, source: &mut R) {
    if source.faults() == u64::MAX {
        return case.fail(CaseFault::NoCase);
    }
    let mut buf = [0; READ_MAX];
    match source.read(&mut buf) {
        Ok(0) => case.say("end"),
        Ok(count) => case.shown(&buf[..count]),
        Err(_) => case.say("fault"),
    }
    case.say(" ");
}

/// What of some bytes goes out to a sink over memory, and how many are told.
fn memory_sends(case: &mut Case<'_>) {
    let room = case.number();
    let piece = case.number().max(1);
    let fails = case.number();
    let bytes = case.bytes();
    let Ok(mut sink) = MemSink::new(case.alloc, room as usize, piece as usize, fails) else {
        return case.fail(CaseFault::Memory);
    };
    let sent = match send_all(&mut sink, &bytes) {
        Ok(()) => bytes.len(),
        Err((_, sent)) => sent,
    };
    case.say("sent ");
    case.say_number(sent as u64);
    case.say(" faults ");
    case.say_number(sink.faults());
    case.say(" ");
    case.shown(sink.bytes());
}

/// How many bytes each write takes of a sink over a writer with some room, or `fault`.
fn writer_writes(case: &mut Case<'_>) {
    let room = case.number();
    let writes = case.lists();
    let Ok(mut room) = vec![in case.alloc; 0; room as usize] else {
        return case.fail(CaseFault::Memory);
    };
    let mut sink = WriterSink::new(room.as_mut_slice());
    for bytes in writes.iter() {
        say_write(case, &mut sink, bytes);
    }
    case.say("faults ");
    case.say_number(sink.faults());
}

fn say_write<W: Sink>(case: &mut Case<'_>, sink: &mut W, bytes: &[u8]) {
    if sink.faults() == u64::MAX {
        return case.fail(CaseFault::NoCase);
    }
    match sink.write(bytes) {
        Ok(count) => case.say_number(count as u64),
        Err(_) => case.say("fault"),
    }
    case.say(" ");
}
