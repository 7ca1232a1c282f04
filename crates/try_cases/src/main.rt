//! `try_cases`: what the crates answer to cases that were made elsewhere, a line for a line.
//! `kinds.rt` lists the kinds of cases.
#![tactic(auto)]

mod asked;
mod asking;
mod case;
mod decide;
mod devices;
mod hmac;
mod keys;
mod kinds;
mod lane;
mod token;
mod verdicts;
mod wire;

use kinds::outcome;
use std::io::{self, BufRead, BufReader};

fn main(rt: HostRuntime) -> io::Result<()> {
    let alloc = rt.alloc();
    let reader = BufReader::new(alloc, rt.reader())?;
    for line in reader.lines(alloc) {
        let line = line?;
        let text = outcome(alloc, line.as_str())?;
        rt.println(text)?;
    }
    Ok(())
}
