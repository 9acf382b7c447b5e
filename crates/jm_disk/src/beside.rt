//! What isn't finished yet: its name, whether it is still there, and its removal.
use crate::file_error::{FileError, Reason};
use crate::paths::{Node, stands_at};
use std::alloc::Global;
use std::fs;
use std::fs::{File, TryLockError};
use std::path::Path;
use std::rt::Files;

/// What stands between a name and the number, in the name of what isn't finished.
const MARK: &str = ".jm_tool-";

/// How many names beside one place are tried.
pub const MOST_NAMES: u32 = 1_000;

/// The longest name, in bytes, that what isn't finished has in its own.
const MOST_NAME_BYTES: usize = 230;

/// Whose an unfinished file or folder is, by its name in the folder that has it: a run has it
/// locked while it goes on. None of any other file or folder.
pub fn unfinished_at<R: Files<File = File>>(rt: &R, path: Path<'_>, name: &str) -> Option<Reason> {
    let front = name.trim_end_matches(|sign: char| sign.is_ascii_digit());
    if front.len() == name.len() || !front.ends_with(MARK) {
        return None;
    }
    let Ok(found) = fs::open(rt, path) else {
        return Some(Reason::Unfinished);
    };
    match found.try_lock_shared() {
        Err(TryLockError::WouldBlock) => Some(Reason::Underway),
        Err(TryLockError::Error(_)) | Ok(()) => Some(Reason::Unfinished),
    }
}

/// The path of what isn't finished beside the place at a path, by a number: it begins with the name
/// there, unless that is too long for more.
pub fn path_beside(alloc: Global, due: &str, number: u32) -> Result<String, FileError> {
    let start = match due.rfind('/') {
        Some(slash) => slash + 1,
        None => 0,
    };
    let front = if due.len() - start > MOST_NAME_BYTES {
        due.get(..start).unwrap_or(due)
    } else {
        due
    };
    Ok(format!(in alloc; "{front}{MARK}{number}")?)
}

/// That what was made at a path is there: another thing in its place is a fault. As long as it is
/// open, nothing else has its numbers.
pub fn confirm<R: Files>(rt: &R, own: &str, node: Node) -> Result<(), FileError> {
    if stands_at(rt, own, node)? {
        Ok(())
    } else {
        Err(FileError::from(Reason::Lost))
    }
}

/// Removes the file at a path, if it has these numbers. The failure that made it useless is told,
/// and none of this.
pub fn remove_own<R: Files>(rt: &R, own: &str, node: Node) {
    if matches!(stands_at(rt, own, node), Ok(true)) {
        let _removed = fs::remove_file(rt, own).is_ok();
    }
}
