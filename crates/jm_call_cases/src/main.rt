//! Calls of the crates below the run: reads lines `VERB NAME: "TEXT" ..` from the standard input,
//! and prints for each `VERB NAME: ` and what the call gave. It judges nothing: `stdout` beside
//! `src/` has what is wanted. The head of `stdin` says what each verb takes.
#![tactic(auto)]

mod candidates;
mod closures;
mod commands;
mod containers;
mod fit;
mod generated;
mod lines;
mod names;
mod nodes;
mod packed;
mod patterns;
mod plans;
mod plugins;
mod pools;
mod sessions;
mod streams;
mod tables;
mod texts;

use jm_lines::Known;
use lines::told_of;
use std::io::{self, BufRead, BufReader};

fn main(rt: HostRuntime) -> io::Result<()> {
    let alloc = rt.alloc();
    let mut known = Known::new(alloc);
    for line in BufReader::new(alloc, rt.reader())?.lines(alloc) {
        let told = told_of(&rt, alloc, &mut known, line?.as_str())?;
        print!(rt; "{told}")?;
    }
    Ok(())
}
