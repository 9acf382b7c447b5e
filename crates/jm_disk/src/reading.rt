//! The bytes of a file of the system.
ghost use Rattle.std.specs.Prelude.{◌≡◌, ◌≤◌, ◌+◌, [], IsOk, OnOk, length};

use crate::file_error::{FileError, Reason};
use crate::paths::{is_absence, text_of};
use jm_bytes::Text;
use std::alloc::Global;
use std::fs::OpenFile;
use std::io::{ErrorKind, Read};
use std::rt::Files;
use std::{fs, io};

/// The most bytes that a file, or a part of one, may have which is read.
pub const MOST_BYTES: u64 = 4_294_967_296;

/// The most bytes that one read asks for.
const MOST_PIECE: usize = 256 * 1024;

/// The bytes that a read asks for where the file tells no length, as many as a pipe holds.
const PIPE_PIECE: usize = 64 * 1024;

/// The bytes of the file at a path, or None where no file is there.
pub fn read_at<R: Files>(rt: &R, alloc: Global, path: &[u8]) -> Result<Option<Text>, FileError> {
    let mut file = match fs::open(rt, text_of(path)?) {
        Ok(file) => file,
        Err(e) if is_absence(e.kind()) => return Ok(None),
        Err(e) => return Err(FileError::from(e)),
    };
    let told = file.metadata()?;
    let length = told.is_file().then_some(told.len());
    if length.unwrap_or(0) > MOST_BYTES {
        return Err(FileError::from(Reason::TooLarge));
    }
    let mut bytes = Vec::new(alloc);
    read_all(&mut file, length, &mut bytes)?;
    match length {
        Some(length) if length != bytes.len() as u64 => Err(FileError::from(Reason::Changed)),
        _ => Ok(Some(Text::from_vec(bytes))),
    }
}

/// Reads a file to its end, or to more bytes than its length, where it tells one. A read that asks
/// for more than the length leaves and gives what it leaves has met the end.
fn read_all<F: Read>(
    file: &mut F,
    length: Option<u64>,
    bytes: &mut Vec<u8>,
) -> Result<(), FileError> {
    for _ in 0..u64::MAX {
        // One more than the length leaves, so that a file that grew is known.
        let room = match length {
            Some(length) => (length as usize)
                .saturating_sub(bytes.len())
                .saturating_add(1)
                .min(MOST_PIECE),
            None => PIPE_PIECE,
        };
        make_room(bytes, room, length)?;
        let count = read_piece(file, room, bytes)?;
        let end = bytes.len() as u64;
        if end > MOST_BYTES {
            return Err(FileError::from(Reason::TooLarge));
        }
        let is_met = length.is_some_and(|length| end > length || end == length && count < room);
        if count == 0 || is_met {
            return Ok(());
        }
    }
    Err(FileError::from(Reason::TooLarge))
}

/// Reads so many bytes from where the file stands, fewer only where it meets the end.
pub fn read_up_to<F: Read>(file: &mut F, count: usize, bytes: &mut Vec<u8>) -> Result<(), FileError>
    requires { bytes.old.items ≡ [] }
    ensures { OnOk result (length bytes.new.items ≤ count) }
{
    for _ in 0..u64::MAX {
        let room = (count - bytes.len()).min(MOST_PIECE);
        make_room(bytes, room, Some(count as u64))?;
        if room == 0 || read_piece(file, room, bytes)? == 0 {
            return Ok(());
        }
    }
    Err(FileError::from(Reason::TooLarge))
}

/// Makes room for a piece. Up to the length the room at most doubles, and hardly passes it.
fn make_room(bytes: &mut Vec<u8>, room: usize, length: Option<u64>) -> Result<(), FileError>
    requires { room ≤ 262_144 }
    ensures { bytes.new.items ≡ bytes.old.items }
{
    let end = bytes.len() + room;
    let whole = length.unwrap_or(0).saturating_add(1) as usize;
    if bytes.capacity() < end && end <= whole {
        bytes.reserve_exact(whole.min(end.saturating_mul(2)) - bytes.len())?;
    }
    Ok(())
}

/// Reads once, to the end of what came. A read that a signal interrupts is tried again.
fn read_piece<F: Read>(file: &mut F, room: usize, bytes: &mut Vec<u8>) -> Result<usize, FileError>
    requires { room ≤ 262_144 }
    ensures { IsOk result → length bytes.new.items ≤ length bytes.old.items + room }
{
    let start = bytes.len();
    bytes.resize(start + room, 0)?;
    for _ in 0..u64::MAX {
        match file.read(&mut bytes.as_mut_slice()[start..]) {
            Ok(count) => {
                bytes.truncate(start.saturating_add(count));
                return Ok(count);
            }
            Err(e) if e.kind() == ErrorKind::Interrupted => {}
            Err(e) => return Err(FileError::from(e)),
        }
    }
    Err(FileError::from(io::Error::from(ErrorKind::Interrupted)))
}
