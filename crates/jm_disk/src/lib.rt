//! The adapter to the file system: a shelf whose files are the system's.
#![tactic(auto)]

mod beside;
mod file_error;
mod file_shelf;
mod flushing;
mod folders;
mod new_file;
mod new_folder;
mod parts;
mod paths;
mod reading;
mod rights;

pub use file_shelf::FileShelf;
