//! Class files: their parts as slices of the input, and the first fault of bytes that are none.
#![tactic(auto)]

mod attributes;
mod class;
mod constants;
mod cursor;
pub mod fields;
mod members;
mod reading;
mod release;

pub use class::{Attribute, Body, Class, ClassFault, Code, Member, Plain, Slot};
pub use constants::{is_wide_slot, slot};
pub use cursor::Cursor;
pub use reading::{magic, major, read, read_for, utf8};
pub use release::{DEFAULT_RELEASE, release_fault};
