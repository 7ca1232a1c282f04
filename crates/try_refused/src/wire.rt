//! Calls of `mac_wire`.

use crate::outcome::{Outcome, made_if, once_more, stood_if};
use mac_wire::{Ending, FeedFault, FrameReader, MemSink, Sink};
use std::alloc::Global;

/// Two frames of three bytes, and the front of a third.
const STREAM: &[u8] = b"\x00\x00\x00\x03abc\x00\x00\x00\x03def\x00\x00";

/// After the refusal each feed answers Ended, and the stream ends Broken.
pub(crate) fn feeds(alloc: Global) -> Outcome {
    let mut reader = FrameReader::new(alloc);
    match reader.feed(STREAM) {
        Ok(arrivals) => made_if(arrivals.len() == 2 && reader.finish() == Ending::Torn),
        Err(FeedFault::NoMemory) => {
            let is_over = is_ended(&mut reader, STREAM) && is_ended(&mut reader, &[]);
            stood_if(is_over && reader.finish() == Ending::Broken && are_fed(alloc))
        }
        Err(FeedFault::Ended) => Outcome::Wrong,
    }
}

fn is_ended(reader: &mut FrameReader, piece: &[u8]) -> bool {
    matches!(reader.feed(piece), Err(FeedFault::Ended))
}

/// Whether a fresh reader gives both frames.
fn are_fed(alloc: Global) -> bool {
    matches!(FrameReader::new(alloc).feed(STREAM), Ok(arrivals) if arrivals.len() == 2)
}

pub(crate) fn makes_sinks(alloc: Global) -> Outcome {
    once_more(is_sink(alloc), is_sink(alloc))
}

fn is_sink(alloc: Global) -> Option<bool> {
    let mut sink = MemSink::new(alloc, 3, 3, 0).ok()?;
    let is_taken = matches!(sink.write(b"abc"), Ok(3));
    Some(is_taken && sink.bytes() == b"abc".as_slice())
}
