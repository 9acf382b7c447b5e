//! The program: the real objects, and one call.
#![tactic(auto)]

mod descriptors;
mod failures;
mod given_words;
mod hint;
mod items;
mod kept_line;
mod told;
mod words_hint;

use descriptors::hold_streams;
use failures::{FailureLine, put, put_line};
use given_words::given_words;
use hint::hint_line;
use jm_commands::{Status, run};
use jm_disk::FileShelf;
use jm_halves::NoGate;
use jm_outside::{StdSink, StdSource};
use kept_line::KeptLine;
use std::io;
use std::process::ExitCode;

fn main(rt: HostRuntime) -> ExitCode {
    if !hold_streams(&rt) {
        put(&rt, b"failed: /dev/null: can't be opened\n");
        return ExitCode::from(Status::Outside.value());
    }
    let words = match given_words(&rt) {
        Ok(words) => words,
        Err(status) => return ExitCode::from(status.value()),
    };
    let alloc = rt.alloc();
    let mut line = FailureLine::new(alloc);
    let mut shelf = FileShelf::new(&rt);
    let mut input = StdSource::new(rt.reader());
    let mut out = StdSink::new(io::writer(&rt));
    let mut err = KeptLine::new(StdSink::new(rt.stderr()));
    let words = words.as_slice();
    let status = run(
        &rt, alloc, words, &mut shelf, &mut input, &mut out, &mut err, &NoGate,
    );
    if status != Status::Done {
        shelf.give_up();
    }
    match status {
        Status::Words | Status::Refused | Status::Damaged | Status::NotThere => {
            put_line(&rt, hint_line(alloc, words, err.line(), &mut shelf));
        }
        Status::Outside => {
            line.put_of_shelf(&rt, shelf.last_failure());
            line.put_of_stream(&rt, "standard input", input.last_failure());
            line.put_of_stream(&rt, "standard output", out.last_failure());
        }
        Status::Memory => put(&rt, b"out of memory\n"),
        Status::Done | Status::Session => {}
    }
    ExitCode::from(status.value())
}
