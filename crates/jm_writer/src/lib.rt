//! The image of a pool: its plan, and how it is written to a file.
#![tactic(auto)]

mod draft;
mod entries;
mod index;
mod interning;
mod laying;
mod locations;
mod planning;
mod rows;
mod tail;
mod writing;

pub use draft::{Draft, PlanFault};
pub use planning::plan;
pub use writing::write;
