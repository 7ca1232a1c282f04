//! Connections one after another, and what each is answered.

use crate::fixed::{FixedMoment, FixedMonitor};
use http_server::{Connection, Log};
use mac_board::FixedTables;
use mac_decide::{Names, Rights, SeenTokens};
use mac_http::{CONFIG, Calls, Face, Granted, Pages, Rules, Sources, Way, take_turn};
use mac_keys::KeyTable;
use mac_wire::Bytes;
use std::alloc::{AllocError, Global};
use std::hash::RandomState;
use std::io;
use std::random::RandomSource;

/// How many bytes all connections together remember tokens in.
const MEMORY: usize = 1_048_576;

/// What begins the line of a connection.
const BEGIN: &[u8] = b"== ";

/// What begins the word of the names that may be used.
const NAMES: &[u8] = b"names=";

/// The key file, and the lines from the first connection on.
pub fn split_front(input: &[u8]) -> (&[u8], &[u8]) {
    let mut start = 0;
    for line in input.split(|byte| *byte == b'\n') {
        if line.starts_with(BEGIN) {
            return (
                &input[..start.min(input.len())],
                &input[start.min(input.len())..],
            );
        }
        start = start.saturating_add(line.len()).saturating_add(1);
    }
    (input, b"")
}

/// Answers each connection, and prints its line and what it is answered.
pub fn answer_all<R>(rt: &R, alloc: Global, keys: &KeyTable, input: &[u8]) -> io::Result<()>
where
    R: Print + RandomSource,
{
    let lines = input.strip_suffix(b"\n").unwrap_or(input);
    let seen = SeenTokens::new(alloc, RandomState::new(rt)?, MEMORY)?;
    let mut words: &[u8] = b"";
    let mut requests = Vec::new(alloc);
    for line in lines.split(|byte| *byte == b'\n') {
        if line.starts_with(BEGIN) {
            answer_one(rt, alloc, keys, &seen, words, &requests)?;
            words = line;
            requests.clear();
        } else {
            requests.extend_from_slice(line)?;
            requests.extend_from_slice(b"\r\n")?;
        }
    }
    answer_one(rt, alloc, keys, &seen, words, &requests)
}

/// Answers a connection, if its line is there.
fn answer_one<R>(
    rt: &R,
    alloc: Global,
    keys: &KeyTable,
    seen: &SeenTokens,
    words: &[u8],
    requests: &[u8],
) -> io::Result<()>
where
    R: Print + RandomSource,
{
    if words.is_empty() {
        return Ok(());
    }
    let rights = rights_of(alloc, words)?;
    let mut face = Face::new(
        alloc,
        FixedTables(keys),
        rules_of(words, &rights),
        FixedMoment::new(),
        monitor_of(words, seen.share()?),
    );
    let mut answers = Vec::new(alloc);
    let mut reader = requests;
    let secrets = RandomState::new(rt)?;
    let mut connection = Connection::new(alloc, secrets, CONFIG);
    for _ in 0..u64::MAX {
        if connection.is_done() {
            break;
        }
        let _count = take_turn(&mut connection, &mut face, &mut reader, &mut answers)?;
    }
    print_text(rt, words)?;
    print_text(rt, b"\n")?;
    print_text(rt, &answers)?;
    print_text(rt, b"\n")
}

fn print_text<R: Print>(rt: &R, text: &[u8]) -> io::Result<()> {
    match str::from_utf8(text) {
        Ok(text) => rt.print(text),
        Err(_) => rt.print("(no text)"),
    }
}

/// Whether a word is among those of a line.
fn has(words: &[u8], word: &[u8]) -> bool {
    words.split(|byte| *byte == b' ').any(|found| found == word)
}

/// The daemon that the words name.
fn monitor_of(words: &[u8], seen: SeenTokens) -> FixedMonitor {
    FixedMonitor {
        is_ending: has(words, b"ending"),
        is_well: !has(words, b"unwell"),
        has_random: !has(words, b"drawless"),
        seen,
        noted: Log::new(),
    }
}

/// What the words allow: under the names behind `names=`, with commas between them, or under all.
fn rights_of(alloc: Global, words: &[u8]) -> Result<Rights, AllocError> {
    let mut names = None;
    for word in words.split(|byte| *byte == b' ') {
        if let Some(list) = word.strip_prefix(NAMES) {
            names = Some(names_of(alloc, list)?);
        }
    }
    Ok(Rights {
        may_mint: !has(words, b"no-mint"),
        names,
    })
}

/// The names of a list, between its commas.
fn names_of(alloc: Global, list: &[u8]) -> Result<Names, AllocError> {
    let mut names = Vec::new(alloc);
    for name in list.split(|byte| *byte == b',') {
        names.push(Bytes::new(Vec::from_slice(alloc, name)?))?;
    }
    Ok(Names::new(names))
}

/// The rules that the words name.
fn rules_of<'a>(words: &[u8], rights: &'a Rights) -> Rules<'a> {
    let sources = Sources {
        header: has(words, b"header"),
        query: has(words, b"query"),
        forwarded: has(words, b"forwarded"),
        strict: has(words, b"strict"),
    };
    let granted = if has(words, b"204") {
        Granted::NoContent
    } else {
        Granted::Ok
    };
    let calls = Calls {
        mint: has(words, b"mint"),
        attenuate: has(words, b"attenuate"),
        inspect: has(words, b"inspect"),
        check: has(words, b"check"),
    };
    let pages = if has(words, b"operators") {
        Pages::All
    } else if has(words, b"pageless") {
        Pages::Nothing
    } else {
        Pages::Public
    };
    Rules {
        sources,
        granted,
        calls,
        pages,
        rights,
        way: if has(words, b"port") {
            Way::Port
        } else {
            Way::Socket
        },
    }
}
