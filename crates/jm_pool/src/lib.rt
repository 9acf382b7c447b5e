//! The pool of resources: names and their bytes, in an order, each name once.
#![tactic(auto)]

mod pairs;
mod pool;

pub use pool::{Pool, Twice};
