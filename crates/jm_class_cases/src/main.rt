//! Does things with classes: reads lines `VERB NAME: HEX` from the standard input, with the bytes
//! of a file as hexadecimal digits, and prints for each what comes of it behind `VERB NAME: `. A
//! number in front of the verb is the release, which is 21 without it.
//!
//! compact     the bytes of the compacted class, or `same`
//! strip       the bytes of the class without debug information, or `same`
//! packages=.. the bytes of the class with a list of these packages, which have commas between
//!             them, or `same`
//! read        that the class is written as it was, with its length; how many parts it has; behind
//!             semicolons its fields, its methods, their codes, and all texts of its constants
//! describe    the module's name and the names that it requires, with a `!` where one is mandated,
//!             and its main class
//!
//! In place of this stands the fault of what is no class, and for `describe`, behind a word for its
//! kind, of what is no module. It judges nothing: `stdout` beside `src/` has what is wanted.
#![tactic(auto)]

mod described;
mod parts;
mod texts;
mod told;

use std::io::{self, BufRead, BufReader};
use told::told_of;

fn main(rt: HostRuntime) -> io::Result<()> {
    let alloc = rt.alloc();
    for line in BufReader::new(alloc, rt.reader())?.lines(alloc) {
        let told = told_of(alloc, line?.as_str())?;
        print!(rt; "{told}")?;
    }
    Ok(())
}
