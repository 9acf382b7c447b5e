//! Class files written: the text of a class, and its length.
#![tactic(auto)]

mod parts;
mod sizes;
mod writing;

pub use parts::{put16, put32};
pub use sizes::{size, slots_size};
pub use writing::write;
