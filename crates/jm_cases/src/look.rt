//! Looks at files.

use crate::case::Case;
use jm_bytes::List;
use jm_lines::{Known, first_word, put_bytes};
use jm_outside::Shelf;
use std::alloc::{AllocError, Global};

/// Puts a path and what is there: a name of the bytes, or one of bytes of which they are a front,
/// with their length, else the bytes, or `none`.
fn put_file(
    told: &mut String,
    known: &Known,
    path: &str,
    bytes: Option<&[u8]>,
) -> Result<(), AllocError> {
    let Some(bytes) = bytes else {
        return write!(told, "{path} none");
    };
    if let Some(name) = known.name_of(bytes) {
        return write!(told, "{path} @{name}");
    }
    if let Some(name) = known.name_of_whole(bytes) {
        let length = bytes.len();
        return write!(told, "{path} @{name} to {length}");
    }
    write!(told, "{path} \"")?;
    put_bytes(told, bytes)?;
    told.push('"')
}

/// `show PATH..`: what stands at each path.
pub fn show(alloc: Global, known: &Known, case: &Case, paths: &str) -> Result<String, AllocError> {
    let mut told = String::new(alloc);
    for path in paths.split(' ') {
        put_file(&mut told, known, path, case.file(path))?;
        told.push('\n')?;
    }
    Ok(told)
}

/// The paths of the files below a folder. It takes a call of the shelf; from then on none fails.
fn paths_below(
    alloc: Global,
    case: &mut Case,
    folder: &str,
) -> Result<Option<Vec<String>>, AllocError> {
    case.shelf.fail_on(List::new(alloc));
    case.shelf.fail_parts_on(List::new(alloc));
    let Ok(names) = case.shelf.names(alloc, folder.as_bytes()) else {
        return Ok(None);
    };
    let mut paths = Vec::new(alloc);
    for name in names.as_slice() {
        let Ok(name) = str::from_utf8(name.as_slice()) else {
            return Ok(None);
        };
        paths.push(format!(in alloc; "{folder}/{name}")?)?;
    }
    Ok(Some(paths))
}

/// `files FOLDER`: each file below a folder, and what it holds.
pub fn files(
    alloc: Global,
    known: &Known,
    case: &mut Case,
    folder: &str,
) -> Result<Option<String>, AllocError> {
    let Some(paths) = paths_below(alloc, case, folder)? else {
        return Ok(None);
    };
    let mut told = String::new(alloc);
    for path in paths.as_slice() {
        put_file(&mut told, known, path.as_str(), case.file(path.as_str()))?;
        told.push('\n')?;
    }
    Ok(Some(told))
}

/// `size PATH..`: how many bytes stand at each path.
pub fn size(alloc: Global, case: &Case, paths: &str) -> Result<String, AllocError> {
    let mut told = String::new(alloc);
    for path in paths.split(' ') {
        match case.file(path) {
            Some(bytes) => writeln!(told, "{path} {}", bytes.len())?,
            None => writeln!(told, "{path} none")?,
        }
    }
    Ok(told)
}

/// The bytes from a place on, at most so many.
fn bytes_at(bytes: &[u8], from: usize, count: usize) -> &[u8] {
    let (_, behind) = bytes.split_at(from.min(bytes.len()));
    let (part, _) = behind.split_at(count.min(behind.len()));
    part
}

/// `part PATH FROM COUNT`: so many bytes of a file from a place on.
pub fn part(
    alloc: Global,
    known: &Known,
    case: &Case,
    rest: &str,
) -> Result<Option<String>, AllocError> {
    let (path, range) = first_word(rest);
    let (from, count) = first_word(range);
    let (Ok(from), Ok(count)) = (from.parse::<usize>(), count.parse::<usize>()) else {
        return Ok(None);
    };
    let bytes = case.file(path).map(|bytes| bytes_at(bytes, from, count));
    let mut told = String::new(alloc);
    put_file(&mut told, known, path, bytes)?;
    told.push('\n')?;
    Ok(Some(told))
}
