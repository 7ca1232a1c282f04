//! `try_serve RUN..`: runs of `serve` over memory, a line for each. What is printed is the same in
//! whatever order the threads went. `runs.rt` lists the runs.
#![tactic(auto)]

mod clock;
mod duplex;
mod false_worker;
mod fault;
mod flags;
mod given_up;
mod load;
mod many;
mod payload;
mod report;
mod requests;
mod runs;
mod serving;
mod streams;
mod table;
mod tables;
mod waiting;
mod whole;

use runs::told;
use std::{env, io};

fn main(rt: HostRuntime) -> io::Result<()> {
    let alloc = rt.alloc();
    let mut words = env::args(&rt)?;
    let _program = words.next();
    for word in words {
        let text = told(&rt, alloc, word.as_str())?;
        rt.println(text)?;
    }
    Ok(())
}
