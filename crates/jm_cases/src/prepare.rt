//! The steps that print nothing. Each says whether its line was one.

use crate::case::{Case, numbers_from};
use jm_bytes::List;
use jm_lines::{Known, first_word};
use std::alloc::{AllocError, Global};

/// `bytes NAME VALUE`: names bytes; a further line of that name goes on with them.
fn name_bytes(alloc: Global, known: &mut Known, rest: &str) -> Result<bool, AllocError> {
    let (name, value) = first_word(rest);
    let Some(bytes) = known.value(alloc, value)? else {
        return Ok(false);
    };
    known.add(alloc, name, bytes.as_slice())?;
    Ok(true)
}

/// `group NAME PATH VALUE`: a file of a group.
fn group_file(alloc: Global, known: &mut Known, rest: &str) -> Result<bool, AllocError> {
    let (group, file) = first_word(rest);
    let (path, value) = first_word(file);
    let Some(bytes) = known.value(alloc, value)? else {
        return Ok(false);
    };
    known.add_member(alloc, group, path, bytes)?;
    Ok(true)
}

/// `with NAME FOLDER`: puts the files of a group on the shelf, below a folder if there is one.
fn put_group(
    alloc: Global,
    known: &Known,
    case: &mut Case,
    rest: &str,
) -> Result<bool, AllocError> {
    let (group, folder) = first_word(rest);
    let slash = if folder.is_empty() { "" } else { "/" };
    let mut found = false;
    for member in known.members() {
        if member.group.as_str() == group {
            let bytes = Vec::from_slice(alloc, member.bytes.as_slice())?;
            let name = member.path.as_str();
            let path = format!(in alloc; "{folder}{slash}{name}")?;
            case.put_file(alloc, path.as_str(), bytes)?;
            found = true;
        }
    }
    Ok(found)
}

/// `file PATH VALUE`: puts a file on the shelf.
fn put_file(alloc: Global, known: &Known, case: &mut Case, rest: &str) -> Result<bool, AllocError> {
    let (path, value) = first_word(rest);
    let Some(bytes) = known.value(alloc, value)? else {
        return Ok(false);
    };
    case.put_file(alloc, path, bytes)?;
    Ok(true)
}

/// A copy of the file at a path.
fn copy_at(alloc: Global, case: &Case, path: &str) -> Result<Option<Vec<u8>>, AllocError> {
    match case.file(path) {
        Some(bytes) => Ok(Some(Vec::from_slice(alloc, bytes)?)),
        None => Ok(None),
    }
}

/// `cut PATH COUNT`: leaves the first bytes of a file.
fn cut_file(alloc: Global, case: &mut Case, rest: &str) -> Result<bool, AllocError> {
    let (path, count) = first_word(rest);
    let (Some(mut bytes), Ok(count)) = (copy_at(alloc, case, path)?, count.parse::<usize>()) else {
        return Ok(false);
    };
    bytes.truncate(count);
    case.put_file(alloc, path, bytes)?;
    Ok(true)
}

/// Puts bytes over those from a place on, and says whether there are so many.
fn put_over(bytes: &mut [u8], place: usize, with: &[u8]) -> bool {
    for (at, byte) in with.iter().enumerate() {
        match bytes.get_mut(place.saturating_add(at)) {
            Some(old) => *old = *byte,
            None => return false,
        }
    }
    true
}

/// `over PATH PLACE VALUE`: changes bytes of a file from a place on.
fn change_file(
    alloc: Global,
    known: &Known,
    case: &mut Case,
    rest: &str,
) -> Result<bool, AllocError> {
    let (path, change) = first_word(rest);
    let (place, value) = first_word(change);
    let Some(mut bytes) = copy_at(alloc, case, path)? else {
        return Ok(false);
    };
    let (Some(with), Ok(place)) = (known.value(alloc, value)?, place.parse::<usize>()) else {
        return Ok(false);
    };
    if !put_over(bytes.as_mut_slice(), place, with.as_slice()) {
        return Ok(false);
    }
    case.put_file(alloc, path, bytes)?;
    Ok(true)
}

/// How many calls of the shelf fail where all do from one on; no case makes more.
const LATER: u64 = 100;

/// The number of a call, or behind a number and `..` this one and all later ones.
fn failing_calls(alloc: Global, number: &str) -> Result<Option<List<u64>>, AllocError> {
    let (first, count) = match number.split_once("..") {
        Some((first, "")) => (first, LATER),
        _ => (number, 1),
    };
    match first.parse::<u64>() {
        Ok(first) => Ok(Some(numbers_from(alloc, first, count)?)),
        Err(_) => Ok(None),
    }
}

/// Makes calls of the shelf fail, or those that give a part of a file.
fn fail_shelf(
    alloc: Global,
    case: &mut Case,
    place: &str,
    number: &str,
) -> Result<bool, AllocError> {
    let Some(calls) = failing_calls(alloc, number)? else {
        return Ok(false);
    };
    if place == "parts" {
        case.shelf.fail_parts_on(calls);
    } else {
        case.shelf.fail_on(calls);
    }
    Ok(true)
}

/// `fail WHERE NUMBER`: which call fails of the shelf, of its parts, of the input, or of the output
/// or the error sink of each run.
fn fail_call(alloc: Global, case: &mut Case, rest: &str) -> Result<bool, AllocError> {
    let (place, number) = first_word(rest);
    if place == "shelf" || place == "parts" {
        return fail_shelf(alloc, case, place, number);
    }
    let Ok(number) = number.parse::<u64>() else {
        return Ok(false);
    };
    match place {
        "input" => case.input_fails = Some(number),
        "output" => case.out_fails = Some(number),
        "error" => case.err_fails = Some(number),
        _ => return Ok(false),
    }
    Ok(true)
}

/// `input VALUE`: the input of each run.
fn put_input(
    alloc: Global,
    known: &Known,
    case: &mut Case,
    value: &str,
) -> Result<bool, AllocError> {
    let Some(bytes) = known.value(alloc, value)? else {
        return Ok(false);
    };
    case.input = bytes;
    Ok(true)
}

/// `repeat COUNT`: the input, so many times.
fn repeat_input(case: &mut Case, count: &str) -> Result<bool, AllocError> {
    let Ok(count) = count.parse::<usize>() else {
        return Ok(false);
    };
    let once = case.input.clone()?;
    for _ in 1..count {
        case.input.extend_from_slice(once.as_slice())?;
    }
    Ok(true)
}

/// `keep NAME PATH`: names the bytes of a file that isn't empty.
fn keep_file(
    alloc: Global,
    known: &mut Known,
    case: &Case,
    rest: &str,
) -> Result<bool, AllocError> {
    let (name, path) = first_word(rest);
    match case.file(path) {
        Some([]) | None => Ok(false),
        Some(bytes) => {
            known.add(alloc, name, bytes)?;
            Ok(true)
        }
    }
}

/// A step with a number: `pieces SIZE` or `front COUNT`.
fn set_number(case: &mut Case, word: &str, number: &str) -> bool {
    let Ok(number) = number.parse::<usize>() else {
        return false;
    };
    match word {
        "pieces" => case.piece = number,
        "front" => case.front = number,
        _ => return false,
    }
    true
}

/// Does a step that prints nothing.
pub fn prepare(
    alloc: Global,
    known: &mut Known,
    case: &mut Case,
    word: &str,
    rest: &str,
) -> Result<bool, AllocError> {
    match word {
        "" | "#" => Ok(true),
        "bytes" => name_bytes(alloc, known, rest),
        "group" => group_file(alloc, known, rest),
        "with" => put_group(alloc, known, case, rest),
        "file" => put_file(alloc, known, case, rest),
        "cut" => cut_file(alloc, case, rest),
        "over" => change_file(alloc, known, case, rest),
        "fail" => fail_call(alloc, case, rest),
        "input" => put_input(alloc, known, case, rest),
        "repeat" => repeat_input(case, rest),
        "keep" => keep_file(alloc, known, case, rest),
        _ => Ok(set_number(case, word, rest)),
    }
}
