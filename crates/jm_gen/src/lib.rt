//! Large inputs from a number: modules of classes that are the same at each run.
#![tactic(auto)]

mod classes;
mod draws;
mod generating;
mod infos;
mod names;

pub use generating::generate;
pub use names::module_names;
