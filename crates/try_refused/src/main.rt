//! `try_refused CALL..`: each call is made, and what came of it is told in a line. Where memory is
//! refused to it, it is told whether what is to stand then stands, and the call is made once more.
//! `calls.rt` lists the calls. Who refuses the memory stands outside: `scripts/faults/faults.py`.
#![tactic(auto)]

mod answers;
mod buffers;
mod calls;
mod outcome;
mod pools;
mod samples;
mod tokens;
mod wire;

use calls::told;
use std::{env, io};

fn main(rt: HostRuntime) -> io::Result<()> {
    let mut words = env::args(&rt)?;
    let _program = words.next();
    for word in words {
        let text = told(&rt, rt.alloc(), word.as_str());
        rt.println(text)?;
    }
    Ok(())
}
