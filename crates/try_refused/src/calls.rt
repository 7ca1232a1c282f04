//! The calls, by their words.

use crate::outcome::{Outcome, Refused};
use crate::{answers, buffers, pools, tokens, wire};
use std::alloc::Global;
use std::sync::Wait;
use std::thread::Threads;

/// What came of the call that a word names.
pub(crate) fn told<R>(rt: &R, alloc: Global, word: &str) -> &'static str
where
    R: Threads + Wait + Copy + Send + 'static,
{
    match of_call(rt, alloc, word) {
        Some(Ok(outcome)) => outcome.text(),
        Some(Err(Refused)) => Outcome::Elsewhere.text(),
        None => "no call",
    }
}

/// The calls.
///
/// ```text
/// bare                                    what a text stands for, in a buffer that is lent
/// push attenuate                          a token of three caveats more, and of one
/// feed sink                               frames, and a device over memory
/// make make_all                           the answer of a job, and of eight
/// buffer ring                             the core, and the ring
/// queue start desk worker                 the pool
/// ```
fn of_call<R>(rt: &R, alloc: Global, word: &str) -> Option<Result<Outcome, Refused>>
where
    R: Threads + Wait + Copy + Send + 'static,
{
    Some(match word {
        "bare" => Ok(tokens::bares(alloc)),
        "push" => tokens::pushes(alloc),
        "attenuate" => Ok(tokens::attenuates(alloc)),
        "feed" => Ok(wire::feeds(alloc)),
        "sink" => Ok(wire::makes_sinks(alloc)),
        "make" => answers::makes(alloc),
        "make_all" => answers::makes_all(alloc),
        "buffer" => Ok(buffers::makes_buffers(alloc)),
        "ring" => Ok(buffers::makes_rings(alloc)),
        "queue" => Ok(pools::makes_queues(alloc)),
        "start" => Ok(pools::starts(rt, alloc)),
        "desk" => pools::desks(rt, alloc),
        "worker" => pools::works(rt, alloc),
        _ => return None,
    })
}
