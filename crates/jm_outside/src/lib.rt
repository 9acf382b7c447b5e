//! The outside of the tool: a shelf of files, a source of bytes and a sink of bytes, as traits; the
//! same in memory, with calls that fail where a test says so; and the adapters to the standard
//! streams.
#![tactic(auto)]

mod calls;
mod file_map;
mod handed;
mod making;
mod mem_shelf;
mod mem_streams;
mod shelf;
mod std_streams;
mod streams;
mod system_error;

pub use handed::Handed;
pub use making::make_file;
pub use mem_shelf::MemShelf;
pub use mem_streams::{MemSink, MemSource};
pub use shelf::{Shelf, ShelfError};
pub use std_streams::{StdSink, StdSource};
pub use streams::{Failed, Sink, SinkError, Source};
pub use system_error::SystemError;
