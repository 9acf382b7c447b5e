//! The files that are made of the entries of an image that are taken.
#![tactic(auto)]

mod contents;
mod extracting;
mod file_paths;
mod refusals;

pub use extracting::{ExtractStop, Extraction, extract};
