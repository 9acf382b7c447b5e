//! What a user is told where the outside failed or no memory was found. `run` says nothing then.
use jm_bytes::{NoMemory, extend};
use jm_names::extend_shown_text;
use jm_outside::{Sink, StdSink, SystemError};
use std::alloc::Global;

/// The bytes for which a line has room: a path as long as the system takes, each of its bytes shown
/// by four, and what went wrong there.
const LINE_ROOM: usize = 17_408;

/// The bytes for which the name of a stream has room, and what the system said of it.
const STREAM_ROOM: usize = 256;

/// Room for a line on a failure. It is found before the run, which may end where no memory is found
/// any more.
#[derive(Drop)]
pub struct FailureLine {
    line: Vec<u8>,
    stream: String,
}

impl FailureLine {
    /// The room, or none where no memory is found for it.
    pub fn new(alloc: Global) -> FailureLine {
        let line = match Vec::with_capacity(alloc, LINE_ROOM) {
            Ok(room) => room,
            Err(_) => Vec::new(alloc),
        };
        let stream = match String::with_capacity(alloc, STREAM_ROOM) {
            Ok(room) => room,
            Err(_) => String::new(alloc),
        };
        FailureLine { line, stream }
    }

    /// Puts the line on the last failure of the file system, if there was one. It may name a path.
    pub fn put_of_shelf(&mut self, rt: &HostRuntime, failure: Option<&str>) {
        if let Some(failure) = failure {
            put_failure(rt, &mut self.line, failure);
        }
    }

    /// Puts the line on the last failure of a stream, if there was one.
    pub fn put_of_stream(&mut self, rt: &HostRuntime, stream: &str, failure: Option<SystemError>) {
        if let Some(error) = failure {
            self.stream.clear();
            let _whole = write!(self.stream, "{stream}: {error}").is_ok();
            put_failure(rt, &mut self.line, self.stream.as_str());
        }
    }
}

/// Puts the line on a failure, as it is shown, as far as there is room or memory for it.
fn put_failure(rt: &HostRuntime, line: &mut Vec<u8>, failure: &str) {
    line.clear();
    let _whole = add_failure(line, failure).is_ok();
    put(rt, line.as_slice());
}

/// Puts a line on a failure at the end of another text.
fn add_failure(line: &mut Vec<u8>, failure: &str) -> Result<(), NoMemory> {
    extend(line, b"failed: ")?;
    extend_shown_text(line, failure.as_bytes())?;
    extend(line, b"\n")
}

/// Puts a line to the standard error, as far as that takes it.
pub fn put_line(rt: &HostRuntime, line: Option<Vec<u8>>) {
    if let Some(line) = line {
        put(rt, line.as_slice());
    }
}

/// Puts bytes to the standard error, as far as that takes them.
pub fn put(rt: &HostRuntime, bytes: &[u8]) {
    // There is nobody left to tell of a failure here.
    let _told = StdSink::new(rt.stderr()).put(rt.alloc(), bytes).is_ok();
}
