//! The strings section of an image that is written: each text once, with its place.
#![tactic(auto)]

mod strings;

pub use strings::{Full, Strings};
