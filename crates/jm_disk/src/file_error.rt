//! What a call of the file system ended with in place of its answer.
use jm_bytes::NoMemory;
use jm_outside::SystemError;
use std::alloc::{AllocError, AllocFailed};
use std::io::ErrorKind;
use std::{fmt, io};

/// Why a call on a file or a folder of the system gave up. Its text says it to a user.
#[derive(Drop)]
pub enum Reason {
    /// What the system answered.
    System(io::Error),
    /// The file has more bytes than may be read.
    TooLarge,
    /// The folder has more files and folders than may be listed.
    TooMany,
    /// The path, or a name in a folder that is listed, isn't UTF-8.
    NotText,
    /// A file or a folder went away while its folder was listed.
    Vanished,
    /// The file gave more or fewer bytes than it had when it was opened, or fewer than its length
    /// that was told.
    Changed,
    /// What is to be replaced, or to be read in parts, is neither a file nor a link to one, or a
    /// path at which a file is to be made ends in no name.
    NotFile,
    /// What stands in a folder is neither a file nor a folder.
    NotListed,
    /// A file or a folder that was made beside its place, and whose run ended before it took its
    /// name.
    Unfinished,
    /// The same of a run that goes on.
    Underway,
    /// What was made beside its place isn't there any more, or something else is.
    Lost,
    /// A link leads nowhere.
    LeadsNowhere,
    /// More links than the system follows on one way, as in a ring of them.
    ManyLinks,
    /// All names for a new file beside another one are taken.
    NoName,
    /// No memory was found.
    Memory,
}

impl fmt::Display for Reason {
    fn fmt<W: fmt::Write>(&self, f: &mut fmt::Formatter<W>) -> fmt::Result {
        let text = match self {
            Reason::System(error) => return SystemError(*error).fmt(f),
            Reason::TooLarge => "more than 4294967296 bytes",
            Reason::TooMany => "more than 16777216 files and folders",
            Reason::NotText => "not UTF-8",
            Reason::Vanished => "went away while it was listed",
            Reason::Changed => "changed while it was read",
            Reason::NotFile => "neither a file nor a link to one",
            Reason::NotListed => "neither a file nor a folder",
            Reason::Unfinished => "an unfinished file of a run that was stopped",
            Reason::Underway => "an unfinished file of a run that goes on",
            Reason::Lost => "its unfinished file was removed or replaced",
            Reason::LeadsNowhere => "a link that leads nowhere",
            Reason::ManyLinks => "more than 40 links on one way, or links in a ring",
            Reason::NoName => "1000 unfinished files stand beside it",
            Reason::Memory => "out of memory",
        };
        f.write_str(text)
    }
}

/// Why a call gave up, and where, if that isn't the path that the call was given.
#[derive(Drop)]
pub struct FileError {
    pub reason: Reason,
    pub place: Option<String>,
}

impl FileError {
    /// The same at a place, if one is given and it has none of its own.
    pub fn at(self, place: Option<String>) -> FileError {
        let FileError {
            reason,
            place: found,
        } = self;
        let place = match found {
            Some(found) => Some(found),
            None => place,
        };
        FileError { reason, place }
    }
}

impl From<Reason> for FileError {
    fn from(reason: Reason) -> FileError {
        FileError {
            reason,
            place: None,
        }
    }
}

/// `System` but for three kinds: where no memory was found, for links without an end, and for a
/// name that isn't UTF-8, of which the system itself has no error and so no number.
impl From<io::Error> for FileError {
    fn from(error: io::Error) -> FileError {
        let reason = match (error.kind(), error.raw_os_error()) {
            (ErrorKind::OutOfMemory, _) => Reason::Memory,
            (ErrorKind::FilesystemLoop, _) => Reason::ManyLinks,
            (ErrorKind::InvalidFilename, None) => Reason::NotText,
            _ => Reason::System(error),
        };
        FileError::from(reason)
    }
}

impl From<NoMemory> for FileError {
    fn from(_: NoMemory) -> FileError {
        FileError::from(Reason::Memory)
    }
}

impl From<AllocError> for FileError {
    fn from(_: AllocError) -> FileError {
        FileError::from(Reason::Memory)
    }
}

impl<T: Drop> From<AllocFailed<T>> for FileError {
    fn from(_: AllocFailed<T>) -> FileError {
        FileError::from(Reason::Memory)
    }
}
