//! The greedy table of an image that is written: a redirect for each bucket, and a slot for
//! each name.
#![tactic(auto)]

mod buckets;
mod building;
mod hashes;
mod marks;
mod prefix;
mod turns;

pub use building::{NoTable, Table, build, redirects_of};
pub use hashes::{default_hashes, slot_of};
