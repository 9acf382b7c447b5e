//! Runs over files in memory: reads cases from the standard input, a line a step, and prints what
//! each run and each look at a file gave. It judges nothing: `stdout` beside `src/` has what is
//! wanted.
#![tactic(auto)]

mod case;
mod look;
mod prepare;
mod steps;

use case::Case;
use jm_lines::Known;
use std::io::{self, BufRead, BufReader};
use steps::step;

fn main(rt: HostRuntime) -> io::Result<()> {
    let alloc = rt.alloc();
    let mut known = Known::new(alloc);
    let mut case = Case::new(alloc);
    for line in BufReader::new(alloc, rt.reader())?.lines(alloc) {
        let told = step(&rt, alloc, &mut known, &mut case, line?.as_str())?;
        print!(rt; "{told}")?;
    }
    Ok(())
}
