//! The contents of compressed images, as `jlink --compress` makes them.
#![tactic(auto)]

mod packed;

pub use packed::{PackedFault, content_of, unpack};
