//! `try_pool RUN..`: runs over the ring and the pool, a line for each. What is printed is the same
//! in whatever order the threads went. `runs.rt` lists the runs.
#![tactic(auto)]

mod digits;
mod drive;
mod fault;
mod hammer;
mod hand_over;
mod rings;
mod rows;
mod runs;
mod tickets;

use runs::told;
use std::{env, io};

fn main(rt: HostRuntime) -> io::Result<()> {
    let alloc = rt.alloc();
    let mut words = env::args(&rt)?;
    let _program = words.next();
    for word in words {
        let text = told(&rt, alloc, word.as_str())?;
        rt.println(text)?;
    }
    Ok(())
}
