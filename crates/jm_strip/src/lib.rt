//! Class files without their debug information: one walk over the bytes, which puts what stays.
#![tactic(auto)]

mod codes;
mod copies;
mod kind;
mod lists;
mod methods;
mod patches;
mod pool;
mod skips;
mod stripping;

pub use stripping::{strip, strip_for};
