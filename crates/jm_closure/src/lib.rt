//! The closure of root modules under what they require (JEP 282).
#![tactic(auto)]

mod candidate;
mod closing;
mod cycle;
mod fault;
mod graph;
mod judging;
mod least;
mod missing;
mod names;
mod places;
mod reach;
mod split;
mod walk;

pub use candidate::Candidate;
pub use closing::close;
pub use fault::CloseFault;
pub use graph::Graph;
pub use judging::judge;
pub use missing::least_lost_root;
pub use names::{edges_of, names_differ, names_of, places_among};
pub use places::Places;
pub use reach::reached;
