//! The words that the process was given.
use crate::failures::put;
use jm_commands::Status;
use jm_outside::{Sink, SinkError, StdSink};
use std::alloc::{AllocError, Global};
use std::env::{Args, Env, FillError};
use std::io::ErrorKind;
use std::{env, str};

/// The words after the program's name, or the status that the program ends with. A word that isn't
/// UTF-8 is a faulty command line: a line with its number goes to the standard error, and a hint.
pub fn given_words(rt: &HostRuntime) -> Result<Vec<String>, Status> {
    match env::args(rt) {
        Ok(args) => match words_of(rt.alloc(), args) {
            Ok(words) => Ok(words),
            Err(_) => Err(out_of_memory(rt)),
        },
        Err(error) if error.kind() == ErrorKind::OutOfMemory => Err(out_of_memory(rt)),
        Err(_) => Err(refuse_word(rt)),
    }
}

/// The words behind the first one, which is the program's name.
fn words_of(alloc: Global, args: Args) -> Result<Vec<String>, AllocError> {
    args.skip(1).collect(alloc)
}

/// Says that no memory was found.
fn out_of_memory(rt: &HostRuntime) -> Status {
    put(rt, b"out of memory\n");
    Status::Memory
}

/// Puts the line on the first word that isn't UTF-8, and then the hint.
fn refuse_word(rt: &HostRuntime) -> Status {
    let Ok(line) = bad_word_line(rt) else {
        return out_of_memory(rt);
    };
    match StdSink::new(rt.stderr()).put(rt.alloc(), line.as_bytes()) {
        Ok(()) => {
            put(rt, b"hint: that word isn't UTF-8, and each word must be\n");
            Status::Words
        }
        Err(SinkError::Failed) => Status::Outside,
        Err(SinkError::Memory) => Status::Memory,
    }
}

/// The line on the first word that isn't UTF-8, with its number from 1, or with 0 where all are:
/// then it is the program's own name.
fn bad_word_line(rt: &HostRuntime) -> Result<String, AllocError> {
    let mut room = vec![in rt.alloc(); 0u8; 4096]?;
    let mut number = 0;
    for at in 1..usize::MAX {
        match is_text_at(rt, at, &mut room)? {
            Some(true) => {}
            Some(false) => {
                number = at;
                break;
            }
            None => break,
        }
    }
    format!(in rt.alloc(); "words: BadValue at {number}\n")
}

/// Whether a word is UTF-8, or None behind the last word. The room grows to the word's length.
fn is_text_at(rt: &HostRuntime, at: usize, room: &mut Vec<u8>) -> Result<Option<bool>, AllocError> {
    for _ in 0..u32::MAX {
        match rt.arg(at, room.as_mut_slice()) {
            Ok(length) => return Ok(Some(str::from_utf8(&room.as_slice()[..length]).is_ok())),
            Err(FillError::NotPresent) => return Ok(None),
            Err(FillError::TooLong) => room.resize(room.len().saturating_mul(2), 0)?,
        }
    }
    Ok(None)
}
