//! What is on the disk: facts of types that only the calls give which wait for it.
ghost use Rattle.std.specs.Prelude.{◌≡◌, IfOk};
ghost use Rattle.std.specs.Fd.{file_raw_fd};

use crate::file_error::FileError;
use crate::paths::folder_of;
use std::fs::File;
use std::io::ErrorKind;
use std::os::fd::{AsRawFd, RawFd};
use std::rt::Files;
use std::{fs, io};

/// That the bytes of an open file are on the disk, as the system said of its descriptor.
#[derive(Clone, Copy)]
pub struct Flushed {
    descriptor: RawFd,
}

/// That a file is on the disk under its name.
#[derive(Clone, Copy)]
pub struct OnDisk {
    _bytes: Flushed,
}

/// What became of the file that took its name last.
#[derive(Drop)]
pub enum LastNamed {
    /// None did.
    Nothing,
    /// It has this path, and nobody waited for the disk.
    Unflushed(String),
    /// It is on the disk.
    Kept(OnDisk),
}

/// Waits until the bytes of an open file are on the disk.
pub fn flush(file: &File) -> io::Result<Flushed>
    ensures { IfOk result (λ flushed. flushed.descriptor ≡ file_raw_fd file.now) }
{
    file.sync_all()?;
    Ok(Flushed {
        descriptor: file.as_raw_fd(),
    })
}

/// Waits until the names in a folder are on the disk. A folder that may not be read is passed over,
/// and so is one on a disk that has no such call.
pub fn flush_folder<R: Files<File = File>>(rt: &R, folder: &str) -> Result<(), FileError> {
    let folder = match fs::open(rt, folder) {
        Ok(folder) => folder,
        Err(e) if e.kind() == ErrorKind::PermissionDenied => return Ok(()),
        Err(e) => return Err(FileError::from(e)),
    };
    match flush(&folder) {
        Ok(_) => Ok(()),
        Err(e) if matches!(e.kind(), ErrorKind::InvalidInput | ErrorKind::Unsupported) => Ok(()),
        Err(e) => Err(FileError::from(e)),
    }
}

/// Waits until the name at a path is on the disk, of a file whose bytes are there.
pub fn keep_name<R: Files<File = File>>(
    rt: &R,
    due: String,
    bytes: Flushed,
) -> Result<OnDisk, FileError> {
    match flush_folder(rt, folder_of(due.as_str())) {
        Ok(()) => Ok(OnDisk { _bytes: bytes }),
        Err(e) => Err(e.at(Some(due))),
    }
}

/// The same of a file that has its name already, with the folders on the way to it.
pub fn keep_named<R: Files<File = File>>(rt: &R, path: String) -> Result<OnDisk, FileError> {
    let flushed = match fs::open(rt, path.as_str()) {
        Ok(file) => flush(&file),
        Err(e) => Err(e),
    };
    let bytes = match flushed {
        Ok(bytes) => bytes,
        Err(e) => return Err(FileError::from(e).at(Some(path))),
    };
    for (end, _) in path.match_indices('/') {
        let flushed = match path.get(..end) {
            Some(folder) if !folder.is_empty() => flush_folder(rt, folder),
            Some(_) | None => Ok(()),
        };
        if let Err(e) = flushed {
            return Err(e.at(Some(path)));
        }
    }
    keep_name(rt, path, bytes)
}
