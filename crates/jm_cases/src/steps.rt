//! What a line of the input does.

use crate::case::{Case, run_line};
use crate::look::{files, part, show, size};
use crate::prepare::prepare;
use jm_lines::{Known, first_word};
use std::alloc::{AllocError, Global};
use std::thread::Threads;

/// Does the step of a line, and gives what is to be printed; None where the line is no step.
fn told_by<T: Threads + Sync>(
    rt: &T,
    alloc: Global,
    known: &mut Known,
    case: &mut Case,
    line: &str,
) -> Result<Option<String>, AllocError> {
    let (word, rest) = first_word(line);
    match word {
        "case" => {
            *case = Case::new(alloc);
            Ok(Some(format!(in alloc; "case {rest}\n")?))
        }
        "run" => Ok(Some(run_line(rt, alloc, known, case, rest)?)),
        "show" => Ok(Some(show(alloc, known, case, rest)?)),
        "files" => files(alloc, known, case, rest),
        "size" => Ok(Some(size(alloc, case, rest)?)),
        "part" => part(alloc, known, case, rest),
        _ => Ok(prepare(alloc, known, case, word, rest)?.then_some(String::new(alloc))),
    }
}

/// Does the step of a line, and gives what is to be printed: for a line that is no step, this line.
pub fn step<T: Threads + Sync>(
    rt: &T,
    alloc: Global,
    known: &mut Known,
    case: &mut Case,
    line: &str,
) -> Result<String, AllocError> {
    match told_by(rt, alloc, known, case, line)? {
        Some(told) => Ok(told),
        None => format!(in alloc; "no step: {line}\n"),
    }
}
