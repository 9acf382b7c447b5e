//! The nodes of the two trees of an image, from the names of its resources.
#![tactic(auto)]

mod children;
mod filed;
mod fronts;
mod names;
mod package_path;
mod packages;
mod rising;
mod texts;
mod trees;

pub use jm_form::{Holds, Owner, TreeNode};
pub use trees::{Clash, NodesFault, nodes, nodes_within};
