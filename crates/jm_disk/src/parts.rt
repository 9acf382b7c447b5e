//! A file of the system that is read in parts.
ghost use Rattle.std.specs.Prelude.{◌≡◌, ◌≤◌, IfOk, OnOk, length};

use crate::file_error::{FileError, Reason};
use crate::paths::{is_absence, is_file_at, node_of, text_of};
use crate::reading::{MOST_BYTES, read_up_to};
use jm_bytes::Text;
use std::alloc::Global;
use std::collections::BTreeMap;
use std::fs;
use std::fs::{File, Metadata};
use std::io::{ErrorKind, Seek, SeekFrom};
use std::mem::replace;
use std::os::unix::fs::{FileExt, MetadataExt};
use std::rt::Files;

/// A file that is open to be read in parts, the path at which it stood when it was opened, what the
/// system said of it then, the length that was told of it last, and whether a part of it was asked
/// for that isn't the whole.
#[derive(Drop)]
pub struct PartedFile {
    pub path: String,
    file: File,
    found: Metadata,
    told_length: u64,
    is_parted: bool,
}

/// What the system said of the files of which parts were given and that aren't open any more, by
/// their paths.
pub type ClosedFiles = BTreeMap<Vec<u8>, Metadata>;

/// Whether both are said of one file, which didn't change.
fn is_unchanged(one: &Metadata, other: &Metadata) -> bool {
    node_of(one) == node_of(other)
        && one.len() == other.len()
        && (one.ctime(), one.ctime_nsec()) == (other.ctime(), other.ctime_nsec())
}

/// The file that stands at a path, or None where none does, after the one that was kept is closed.
/// One of which a part was asked for before must be the same.
pub fn open_after<R: Files<File = File> + AllocGlobal>(
    rt: &R,
    kept: Option<PartedFile>,
    closed: &mut ClosedFiles,
    path: &[u8],
) -> Result<Option<PartedFile>, FileError> {
    if let Some(kept) = kept {
        let PartedFile {
            path,
            file,
            found,
            is_parted,
            ..
        } = kept;
        drop(file);
        if is_parted {
            let _before = closed.insert(path.into_bytes(), found)?;
        }
    }
    let opened = open_at(rt, path)?;
    match (&opened, closed.get(path)) {
        (Some(file), Some(known)) if !is_unchanged(known, &file.found) => {
            Err(FileError::from(Reason::Changed))
        }
        _ => Ok(opened),
    }
}

/// Opens the file of a path, unless none is there. What is no file isn't opened: a pipe would wait
/// for a writer.
fn open_at<R: Files<File = File> + AllocGlobal>(
    rt: &R,
    path: &[u8],
) -> Result<Option<PartedFile>, FileError> {
    let path = text_of(path)?;
    if !is_file_at(rt, path)? {
        return Ok(None);
    }
    let file = match fs::open(rt, path) {
        Ok(file) => file,
        Err(e) if is_absence(e.kind()) => return Ok(None),
        Err(e) => return Err(FileError::from(e)),
    };
    // Another thing may stand there by now.
    let found = file.metadata()?;
    if !found.is_file() {
        return Err(FileError::from(Reason::NotFile));
    }
    Ok(Some(PartedFile {
        path: String::from_str(rt.alloc(), path)?,
        file,
        found,
        told_length: 0,
        is_parted: false,
    }))
}

impl PartedFile {
    /// How many bytes the file has now, which is told.
    pub fn length(&mut self) -> Result<u64, FileError> {
        self.found = self.file.metadata()?;
        self.told_length = self.found.len();
        Ok(self.told_length)
    }

    /// The bytes from a place on, so many or as many as the file has there now, and at most as many
    /// as a file may have that is read. Fewer than there were by the length that was told last are
    /// a fault.
    pub fn part(&mut self, alloc: Global, at: u64, count: usize) -> Result<Text, FileError>
        ensures { IfOk result (λ text. length text ≤ count) }
    {
        let rest = self.file.metadata()?.len().saturating_sub(at) as usize;
        if count.min(rest) as u64 > MOST_BYTES {
            return Err(FileError::from(Reason::TooLarge));
        }
        let mut bytes = Vec::new(alloc);
        if rest > 0 {
            self.is_parted |= at > 0 || count < rest;
            self.file.seek(SeekFrom::Start(at))?;
            read_up_to(&mut self.file, count.min(rest), &mut bytes)?;
        }
        let told = self.told_length.saturating_sub(at) as usize;
        if bytes.len() < count.min(told) {
            return Err(FileError::from(Reason::Changed));
        }
        Ok(Text::from_vec(bytes))
    }

    /// Puts exactly so many bytes from a place on into a text, in the place of what it holds, and
    /// in its memory where that has room. Fewer bytes there are a fault, and so is a part of more
    /// than a file may have that is read.
    pub fn exact_part(&mut self, at: u64, count: usize, into: &mut Text) -> Result<(), FileError>
        ensures { OnOk result (length into.new ≡ count) }
    {
        if count as u64 > MOST_BYTES {
            return Err(FileError::from(Reason::TooLarge));
        }
        let empty = Text::new(into.allocator());
        let mut bytes = replace(into, empty).into_vec();
        // Where it has too little room, what it holds isn't copied to new memory.
        if bytes.capacity() < count {
            bytes.clear();
        }
        bytes.resize(count, 0)?;
        self.is_parted |= at > 0 || (count as u64) < self.found.len();
        match self.file.read_exact_at(bytes.as_mut_slice(), at) {
            Ok(()) => {}
            // The system takes no place that is far after the end.
            Err(e) if matches!(e.kind(), ErrorKind::UnexpectedEof | ErrorKind::InvalidInput) => {
                return Err(FileError::from(Reason::Changed));
            }
            Err(e) => return Err(FileError::from(e)),
        }
        *into = Text::from_vec(bytes);
        Ok(())
    }
}
