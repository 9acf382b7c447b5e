use std::io::ErrorKind;
use std::{fmt, io};

/// An error of the system as a user is told of it: the words of its kind, or its number where it is
/// of none.
#[derive(Clone, Copy, Debug)]
pub struct SystemError(pub io::Error);

impl fmt::Display for SystemError {
    fn fmt<W: fmt::Write>(&self, f: &mut fmt::Formatter<W>) -> fmt::Result {
        match (self.0.kind(), self.0.raw_os_error()) {
            (ErrorKind::Uncategorized, Some(number)) => write!(f, "error {number} of the system"),
            (kind, _) => kind.fmt(f),
        }
    }
}
