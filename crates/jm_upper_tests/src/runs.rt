//! Runs of the program's top call.

use crate::told::text_of;
use jm_bytes::{List, Text};
use jm_commands::run;
use jm_halves::Gate;
use jm_outside::{MemSink, MemSource, Shelf};
use std::alloc::Global;
use std::test::Fail;
use std::thread::Threads;

/// The words of a command line, which spaces part.
fn words_of(alloc: Global, line: &str) -> Result<Vec<String>, Fail> {
    let mut words = Vec::new(alloc);
    for word in line.split(' ') {
        words.push(String::from_str(alloc, word)?)?;
    }
    Ok(words)
}

/// What a command line gives on a shelf: the status, the output and the error sink's text, with a
/// bar behind each of the first two.
pub fn told_by<T: Threads + Sync, S: Shelf, G: Gate + Sync>(
    rt: &T,
    alloc: Global,
    line: &str,
    shelf: &mut S,
    gate: &G,
) -> Result<String, Fail> {
    let words = words_of(alloc, line)?;
    let mut input = MemSource::new(Text::new(alloc), List::new(alloc));
    let mut out = MemSink::new(alloc);
    let mut err = MemSink::new(alloc);
    let words = words.as_slice();
    let status = run(
        rt, alloc, words, shelf, &mut input, &mut out, &mut err, gate,
    );
    let (status, out) = (status.value(), text_of(alloc, out.bytes())?);
    let err = text_of(alloc, err.bytes())?;
    Ok(format!(in alloc; "{status}|{out}|{err}")?)
}
