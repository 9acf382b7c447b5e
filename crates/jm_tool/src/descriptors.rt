//! The descriptors of the three streams.
use std::fs::{File, OpenOptions};
use std::os::fd::{AsRawFd, IntoRawFd};
use std::{fs, io};

/// The last descriptor of a stream.
const STANDARD_ERROR: i32 = 2;

/// Sees to it that the descriptors of the three streams are open, so that none of them becomes a
/// file that is opened later. One that is closed then leads nowhere. False where that can't be had.
pub fn hold_streams(rt: &HostRuntime) -> bool {
    // The system gives the least number that is free.
    for _ in 0..=STANDARD_ERROR + 1 {
        match nowhere(rt) {
            Ok(file) if file.as_raw_fd() > STANDARD_ERROR => return true,
            Ok(file) => {
                let _open = file.into_raw_fd();
            }
            Err(_) => return false,
        }
    }
    false
}

/// What takes any bytes and gives none, or at least is no file.
fn nowhere(rt: &HostRuntime) -> io::Result<File> {
    match OpenOptions::new()
        .read(true)
        .write(true)
        .open(rt, "/dev/null")
    {
        Ok(file) => Ok(file),
        Err(_) => fs::open(rt, "/"),
    }
}
