//! The runs, and what does each.

use crate::fault::RunFault;
use crate::{duplex, false_worker, given_up, load, many, serving, tables, whole};
use mac_wire::Version;
use std::alloc::{AllocError, Global};
use std::sync::Wait;
use std::thread::Threads;

/// What a word's run comes to, or why it comes to nothing.
pub(crate) fn told<R>(rt: &R, alloc: Global, word: &str) -> Result<String, AllocError>
where
    R: Threads + Wait + Sync + Copy + Send + 'static,
{
    match run(rt, alloc, word) {
        Ok(text) => Ok(text),
        Err(RunFault::NoRun) => String::from_str(alloc, "no run"),
        Err(RunFault::Refused) => String::from_str(alloc, "refused"),
        Err(RunFault::Wrong) => String::from_str(alloc, "wrong"),
    }
}

/// What a run's name stands for.
#[derive(Clone, Copy)]
enum Kind {
    Stream,
    Duplex,
    Cuts,
    FailingReads,
    FailingWrites,
    GivenUp,
    Posts,
    Two,
    Many,
    Whole,
    Load,
    Made,
}

/// The runs: a name, and what it takes behind colons. `streams.rt` names the streams.
///
/// ```text
/// stream:NAME:WORKERS:PIECE   a stream by so many workers, in pieces of so many bytes
/// duplex                      two frames, of which the second waits for the first's reply
/// cuts:VERSION                two frames in version one or two, cut to each number of bytes
/// failing_reads:VERSION       the same, and a source that fails at each of its calls
/// failing_writes:VERSION      the same, and a sink that fails at each of its calls
/// given_up                    a frame whose reply can't be written, from a peer that waits for it
/// posts:HOW                   two frames, by a worker that posts false answers
/// two:NAME:NAME               two streams at once by two workers, a byte a call
/// many:REQUESTS:SEED          requests that look random, over three connections, by four workers
/// whole:WORKERS:CONNECTIONS   so many connections at once, each of 50 requests, by so many workers
/// load:KIND:WORKERS:REQUESTS  requests of one kind, to be timed: mint, verify or empty
/// made:KIND:REQUESTS          what is done for it before it is served
/// ```
const RUNS: &[(&str, Kind)] = &[
    ("stream", Kind::Stream),
    ("duplex", Kind::Duplex),
    ("cuts", Kind::Cuts),
    ("failing_reads", Kind::FailingReads),
    ("failing_writes", Kind::FailingWrites),
    ("given_up", Kind::GivenUp),
    ("posts", Kind::Posts),
    ("two", Kind::Two),
    ("many", Kind::Many),
    ("whole", Kind::Whole),
    ("load", Kind::Load),
    ("made", Kind::Made),
];

/// What a name stands for.
fn kind_of(name: &str) -> Result<Kind, RunFault> {
    for (known, kind) in RUNS {
        if *known == name {
            return Ok(*kind);
        }
    }
    Err(RunFault::NoRun)
}

/// What a word's run comes to.
fn run<R>(rt: &R, alloc: Global, word: &str) -> Result<String, RunFault>
where
    R: Threads + Wait + Sync + Copy + Send + 'static,
{
    let (name, rest) = divided(word);
    let (first, behind) = divided(rest);
    match kind_of(name)? {
        Kind::Stream => {
            let (workers, piece) = numbers(behind)?;
            serving::stream_told(rt, alloc, first, workers as usize, piece as usize)
        }
        Kind::Duplex => duplex::duplex_told(rt, alloc),
        Kind::Cuts => tables::cuts_told(rt, alloc, version(rest)?),
        Kind::FailingReads => tables::reads_told(rt, alloc, version(rest)?),
        Kind::FailingWrites => tables::writes_told(rt, alloc, version(rest)?),
        Kind::GivenUp => given_up::given_up_told(rt, alloc),
        Kind::Posts => false_worker::false_worker_told(rt, alloc, rest),
        Kind::Two => many::two_told(rt, alloc, first, behind),
        Kind::Many => many::many_told(rt, alloc, number(first)?, number(behind)?),
        Kind::Whole => {
            let (workers, connections) = numbers(rest)?;
            whole::whole_told(rt, alloc, workers as usize, connections as usize)
        }
        Kind::Load => {
            let (workers, count) = numbers(behind)?;
            load::load_told(rt, alloc, first, workers as usize, count)
        }
        Kind::Made => load::made_told(alloc, first, number(behind)?),
    }
}

/// What stands before the first colon, and behind it.
fn divided(word: &str) -> (&str, &str) {
    word.split_once(':').unwrap_or((word, ""))
}

/// The version that a word names.
fn version(word: &str) -> Result<Version, RunFault> {
    match word {
        "one" => Ok(Version::One),
        "two" => Ok(Version::Two),
        _ => Err(RunFault::NoRun),
    }
}

/// The number that a word is.
fn number(word: &str) -> Result<u64, RunFault> {
    match word.parse::<u64>() {
        Ok(number) => Ok(number),
        Err(_) => Err(RunFault::NoRun),
    }
}

/// The numbers before and behind a colon.
fn numbers(words: &str) -> Result<(u64, u64), RunFault> {
    let (one, other) = divided(words);
    Ok((number(one)?, number(other)?))
}
