//! `try_http`: HTTP requests on standard input, and on standard output what the face answers.
//!
//! The input begins with a key file. Each line `== WORD..` begins a connection, whose requests are
//! the lines behind it, each ended by CR and LF. The words name sources of facts, calls, `204`,
//! `strict`, `port`, `no-mint` and `names=NAME,..`. The moment is the same for all.
#![tactic(auto)]

mod connections;
mod fixed;

use connections::answer_all;
use mac_keys::KeyTable;
use std::io::{self, ErrorKind, Read};

fn main(rt: HostRuntime) -> io::Result<()> {
    let alloc = rt.alloc();
    let mut input = Vec::new(alloc);
    rt.reader().read_to_end(&mut input)?;
    let (front, connections) = connections::split_front(&input);
    let Ok(keys) = KeyTable::read(alloc, front) else {
        return Err(ErrorKind::InvalidData.into());
    };
    answer_all(&rt, alloc, &keys, connections)
}
