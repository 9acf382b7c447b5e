//! Class files without the constants that nothing names.
#![tactic(auto)]

mod compacting;
mod numbers;
mod pool;
mod sites;

pub use compacting::{compact, compact_for};
