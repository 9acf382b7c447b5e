//! Shelves in memory and of the system, by scripts.
//!
//! A line of a script is what it shows, a call, a path and the bytes that are added, a bar behind
//! each of them, and the answer. The answer of `names` has a comma behind each name, that of `read`
//! is the bytes, or `-` where there is no file, that of a write is empty, and a failure is `!`.
//! `length` answers a number or `-`. For `part` the place and the number of bytes that are asked
//! for, with a space between, stand where a write has its bytes; it answers as `read`. `exact` is
//! asked as `part` and answers the bytes.

use crate::calls::{call_numbers, shelf_of};
use jm_bytes::{NoMemory, Text, extend};
use jm_outside::{Shelf, ShelfError};
use std::alloc::Global;
use std::test::Fail;

fn tell_names(out: &mut Vec<u8>, names: &[Text]) -> Result<(), NoMemory> {
    for name in names {
        extend(out, name.as_slice())?;
        extend(out, b",")?;
    }
    Ok(())
}

fn tell_found(out: &mut Vec<u8>, found: Option<Text>) -> Result<(), NoMemory> {
    match found {
        Some(text) => extend(out, text.as_slice()),
        None => extend(out, b"-"),
    }
}

fn tell_length(alloc: Global, out: &mut Vec<u8>, found: Option<u64>) -> Result<(), ShelfError> {
    match found {
        Some(length) => extend(out, format!(in alloc; "{length}")?.as_bytes())?,
        None => extend(out, b"-")?,
    }
    Ok(())
}

/// The place and the number of bytes of a part. `end` is the last place of all, and `all` is more
/// bytes than a file has.
fn part_asked(text: &str) -> (u64, usize) {
    let (at, count) = text.split_once(' ').unwrap_or((text, ""));
    let at = if at == "end" {
        u64::MAX
    } else {
        at.parse::<u64>().unwrap_or(0)
    };
    (at, count.parse::<usize>().unwrap_or(usize::MAX))
}

fn tell_answer<S: Shelf>(
    alloc: Global,
    shelf: &mut S,
    call: &str,
    path: &str,
    bytes: &str,
    out: &mut Vec<u8>,
) -> Result<(), ShelfError> {
    match call {
        "names" => tell_names(out, shelf.names(alloc, path.as_bytes())?.as_slice())?,
        "read" => tell_found(out, shelf.read(alloc, path.as_bytes())?)?,
        "length" => tell_length(alloc, out, shelf.length(alloc, path.as_bytes())?)?,
        "part" => {
            let (at, count) = part_asked(bytes);
            tell_found(out, shelf.read_part(alloc, path.as_bytes(), at, count)?)?;
        }
        "exact" => {
            let (at, count) = part_asked(bytes);
            let mut text = Text::copy_of(alloc, b"before")?;
            shelf.read_exact(alloc, path.as_bytes(), at, count, &mut text)?;
            extend(out, text.as_slice())?;
        }
        "create" => shelf.create(alloc, path.as_bytes())?,
        "finish" => shelf.finish(alloc)?,
        _ => shelf.append(alloc, path.as_bytes(), bytes.as_bytes())?,
    }
    Ok(())
}

/// What a shelf answers to the call of a line, if it isn't the answer that stands there.
fn other_answer<S: Shelf>(
    alloc: Global,
    shelf: &mut S,
    line: &str,
) -> Result<Option<String>, Fail> {
    let mut parts = line.split('|');
    let _shows = parts.next();
    let call = parts.next().unwrap_or("");
    let path = parts.next().unwrap_or("");
    let bytes = parts.next().unwrap_or("");
    let mut out = Vec::new(alloc);
    match tell_answer(alloc, shelf, call, path, bytes, &mut out) {
        Ok(()) => {}
        Err(ShelfError::Failed) => extend(&mut out, b"!")?,
        Err(ShelfError::Memory) => extend(&mut out, b"no memory")?,
    }
    let answer = String::from_utf8(out)?;
    Ok(if Some(answer.as_str()) == parts.next() {
        None
    } else {
        Some(answer)
    })
}

/// The first line of a script that a shelf answers otherwise, with its answer.
pub fn unlike<'a, S: Shelf>(
    alloc: Global,
    shelf: &mut S,
    script: &[&'a str],
) -> Result<Option<(&'a str, String)>, Fail> {
    for line in script {
        if let Some(answer) = other_answer(alloc, shelf, line)? {
            return Ok(Some((line, answer)));
        }
    }
    Ok(None)
}

/// Files below a folder, to one of which more is added once another was made.
pub const TREE: &[&str] = &[
    "no folder|names|d||",
    "a file in folders that aren't there|create|d/a/b/two words.txt||",
    "nothing is added|append|d/a/b/two words.txt||",
    "bytes are added|append|d/a/b/two words.txt|4444|",
    "a second file|create|d/a b||",
    "bytes are added to it|append|d/a b|33|",
    "and more|append|d/a b|3|",
    "it is made anew|create|d/a b||",
    "a byte is added to it|append|d/a b|2|",
    "nothing is added to it|append|d/a b||",
    "a third file|create|d/a/b.txt||",
    "nothing is added to the third|append|d/a/b.txt||",
    "nor a second time|append|d/a/b.txt||",
    "once more to the second|append|d/a b|2|",
    "the making of files ends|finish|||",
    "all rise by their bytes|names|d||a b,a/b.txt,a/b/two words.txt,",
    "what was added since it was made anew|read|d/a b||22",
    "an empty file|read|d/a/b.txt||",
    "what was added|read|d/a/b/two words.txt||4444",
    "no file|read|d/a/c||-",
];

/// Parts of files, which others are read and made between.
pub const PARTS: &[&str] = &[
    "no file has no length|length|p/six||-",
    "no file has no part|part|p/six|0 3|-",
    "a file that isn't finished|create|p/six||",
    "it has bytes|append|p/six|abcdef|",
    "a file of no byte|create|p/none||",
    "the first has its length|length|p/six||6",
    "a part at the front|part|p/six|0 2|ab",
    "a part in the middle|part|p/six|2 3|cde",
    "a part before it|part|p/six|1 1|b",
    "a part as far as the end|part|p/six|4 2|ef",
    "a part over the end|part|p/six|4 3|ef",
    "a part at the end|part|p/six|6 1|",
    "a part behind the end|part|p/six|7 1|",
    "a part far behind the end|part|p/six|1125899906842624 1|",
    "a part at the last place of all|part|p/six|end 1|",
    "no byte is asked for|part|p/six|2 0|",
    "as many as there are|part|p/six|3 all|def",
    "all of it|part|p/six|0 all|abcdef",
    "exactly so many in the middle|exact|p/six|1 2|bc",
    "and those behind them|exact|p/six|3 3|def",
    "exactly all|exact|p/six|0 6|abcdef",
    "exactly none|exact|p/six|3 0|",
    "a file of no byte has the length 0|length|p/none||0",
    "and the empty part|part|p/none|0 3|",
    "also behind its end|part|p/none|1 3|",
    "no file has no length, whatever was open|length|p/no||-",
    "the first again|part|p/six|5 1|f",
    "bytes are added|append|p/six|gh|",
    "they are in its length|length|p/six||8",
    "and in a part|part|p/six|5 all|fgh",
    "it is read whole|read|p/six||abcdefgh",
    "a part behind that|part|p/six|1 2|bc",
    "it is made anew|create|p/six||",
    "with another byte|append|p/six|z|",
    "the making of files ends|finish|||",
    "the new one has its length|length|p/six||1",
    "and its part|part|p/six|0 2|z",
    "it is listed|names|p||none,six,",
    "a part behind the list|part|p/six|0 1|z",
];

/// The first six calls fail, the fourth of them with half its bytes added, and the first one for a
/// part, which has a number of its own. So do those for exactly so many bytes, of which not all are
/// there.
const FAILING: &[&str] = &[
    "a list fails|names|d||!",
    "a part fails|part|d/a|0 2|!",
    "a read fails|read|d/a||!",
    "a create fails|create|d/a||!",
    "an append fails|append|d/a|12345|!",
    "a finish fails|finish|||!",
    "a length fails|length|d/a||!",
    "a list|names|d||a,",
    "half was added|read|d/a||one12",
    "the same list|names|d||a,",
    "the same read|read|d/a||one12",
    "a length|length|d/a||5",
    "a part|part|d/a|0 2|on",
    "as many as there are|exact|d/a|1 4|ne12",
    "one more than there are|exact|d/a|1 5|!",
    "no file has any|exact|d/b|0 0|!",
    "a create|create|d/a||",
    "an append|append|d/a|12345|",
    "a finish|finish|||",
    "the list is as before|names|d||a,",
    "the file has what was added|read|d/a||12345",
];

#[test]
fn a_shelf_in_memory_keeps_files(rt: HostRuntime) -> Result<(), Fail> {
    let mut shelf = shelf_of(rt.alloc(), &[], &[])?;
    assert_eq!(rt; unlike(rt.alloc(), &mut shelf, TREE)?, None);
    assert_eq!(rt; shelf.file(b"d/a b"), Some(b"22".as_slice()));
    Ok(())
}

#[test]
fn a_shelf_in_memory_gives_parts(rt: HostRuntime) -> Result<(), Fail> {
    let mut shelf = shelf_of(rt.alloc(), &[], &[])?;
    assert_eq!(rt; unlike(rt.alloc(), &mut shelf, PARTS)?, None);
    Ok(())
}

#[test]
fn a_shelf_in_memory_fails_the_listed_calls(rt: HostRuntime) -> Result<(), Fail> {
    let mut shelf = shelf_of(rt.alloc(), &[("d/a", b"one")], &[0, 1, 2, 3, 4, 5])?;
    shelf.fail_parts_on(call_numbers(rt.alloc(), &[0])?);
    assert_eq!(rt; unlike(rt.alloc(), &mut shelf, FAILING)?, None);
    assert_eq!(rt; shelf.file(b"d/a"), Some(b"12345".as_slice()));
    Ok(())
}
