//! Service binding: the closure of root modules under what they require and under the services
//! that they use.
#![tactic(auto)]

mod binding;
mod nodes;

pub use binding::bind;
