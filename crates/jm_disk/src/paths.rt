//! Paths of the system, and what stands there.
use crate::file_error::{FileError, Reason};
use std::fs::Metadata;
use std::io::ErrorKind;
use std::os::unix::fs::MetadataExt;
use std::path::Path;
use std::rt::Files;
use std::{fs, io, str};

/// Whether an error says that nothing is at a path, or that a folder of the path is none.
pub fn is_absence(kind: ErrorKind) -> bool {
    matches!(kind, ErrorKind::NotFound | ErrorKind::NotADirectory)
}

/// A path as the system takes it.
pub fn text_of(path: &[u8]) -> Result<&str, FileError> {
    match str::from_utf8(path) {
        Ok(path) => Ok(path),
        Err(_) => Err(FileError::from(Reason::NotText)),
    }
}

/// The folder in which the last name of a path stands.
pub fn folder_of(path: &str) -> &str {
    match path.rsplit_once('/') {
        Some(("", _)) => "/",
        Some((folder, _)) => folder,
        None => ".",
    }
}

/// The numbers by which the system knows a file or a folder: those of its device and of its inode.
pub type Node = (u64, u64);

/// The numbers of what the system says this of.
pub fn node_of(found: &Metadata) -> Node {
    (found.dev(), found.ino())
}

/// Whether what stands at a path, itself and no link to it, has these numbers.
pub fn stands_at<R: Files>(rt: &R, path: &str, node: Node) -> Result<bool, FileError> {
    match fs::symlink_metadata(rt, path) {
        Ok(found) => Ok(node_of(&found) == node),
        Err(e) if is_absence(e.kind()) => Ok(false),
        Err(e) => Err(FileError::from(e)),
    }
}

/// What the system says of the folder, or of what else is there, at a path that is listed. None
/// where nothing is.
pub fn listed_at<R: Files>(rt: &R, path: &str) -> Result<Option<Metadata>, FileError> {
    match fs::metadata(rt, path) {
        Ok(found) => Ok(Some(found)),
        Err(e) if is_absence(e.kind()) => Ok(None),
        Err(e) => Err(behind_link(e)),
    }
}

/// Whether both are said of one folder. Some disks number a folder anew when it isn't in use; its
/// length and the time of its last change stay.
pub fn is_same(one: &Metadata, other: &Metadata) -> bool {
    node_of(one) == node_of(other)
        || one.dev() == other.dev()
            && one.size() == other.size()
            && (one.ctime(), one.ctime_nsec()) == (other.ctime(), other.ctime_nsec())
}

/// What a way that ends in a link comes to.
pub fn behind_link(error: io::Error) -> FileError {
    if is_absence(error.kind()) {
        FileError::from(Reason::LeadsNowhere)
    } else {
        FileError::from(error)
    }
}

/// Whether a file stands at a path, or a link to one. What else is there is a fault.
pub fn is_file_at<R: Files>(rt: &R, path: &str) -> Result<bool, FileError> {
    match fs::metadata(rt, path) {
        Ok(found) if found.is_file() => Ok(true),
        Ok(_) => Err(FileError::from(Reason::NotFile)),
        Err(e) if is_absence(e.kind()) => Ok(false),
        Err(e) => Err(FileError::from(e)),
    }
}

/// What stands in a folder that is listed.
#[derive(Clone, Copy)]
pub enum Kind {
    File,
    Folder,
}

/// What the entry of a folder is, or what it leads to. Where nothing is found, it is a link, or
/// isn't there any more.
pub fn kind_at<R: Files>(rt: &R, path: Path<'_>) -> Result<Kind, FileError> {
    let found = match fs::metadata(rt, path) {
        Ok(found) => found,
        Err(e) if is_absence(e.kind()) => {
            return Err(match fs::symlink_metadata(rt, path) {
                Ok(found) if found.is_symlink() => FileError::from(Reason::LeadsNowhere),
                Ok(_) => FileError::from(Reason::Vanished),
                Err(e) if is_absence(e.kind()) => FileError::from(Reason::Vanished),
                Err(e) => FileError::from(e),
            });
        }
        Err(e) => return Err(FileError::from(e)),
    };
    if found.is_file() {
        Ok(Kind::File)
    } else if found.is_dir() {
        Ok(Kind::Folder)
    } else {
        Err(FileError::from(Reason::NotListed))
    }
}

/// Where a file is to be made: its path without a link at its end, and what the system says of the
/// file that it replaces, or None where nothing is there.
#[derive(Drop)]
pub struct Place {
    pub path: String,
    pub old: Option<Metadata>,
}

/// The place of a file that is to be made at a path, which ends in a name.
pub fn place_at<R: Files + AllocGlobal>(rt: &R, path: &str) -> Result<Place, FileError> {
    let there = match fs::symlink_metadata(rt, path) {
        Ok(there) => there,
        Err(e) if e.kind() == ErrorKind::NotFound => {
            return Ok(Place {
                path: String::from_str(rt.alloc(), path)?,
                old: None,
            });
        }
        Err(e) => return Err(FileError::from(e)),
    };
    if there.is_symlink() {
        linked_place(rt, path)
    } else if there.is_file() {
        Ok(Place {
            path: String::from_str(rt.alloc(), path)?,
            old: Some(there),
        })
    } else {
        Err(FileError::from(Reason::NotFile))
    }
}

/// The place of the file that a link leads to. What has no path of its own is none, as a file
/// behind a stream that was removed.
fn linked_place<R: Files + AllocGlobal>(rt: &R, path: &str) -> Result<Place, FileError> {
    let target = match fs::metadata(rt, path) {
        Ok(target) if target.is_file() => target,
        Ok(_) => return Err(FileError::from(Reason::NotFile)),
        Err(e) => return Err(behind_link(e)),
    };
    let real = fs::canonicalize(rt, path)?.into_string();
    if !stands_at(rt, real.as_str(), node_of(&target))? {
        return Err(FileError::from(Reason::NotFile));
    }
    Ok(Place {
        path: real,
        old: Some(target),
    })
}
