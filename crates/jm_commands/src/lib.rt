//! The commands, and the top call that does all that the program does.
#![tactic(auto)]

mod decompress;
mod generator;
mod help;
mod kept_order;
mod link;
mod program;
mod version;

pub use jm_inspect::{Status, cat_command};
pub use program::run;
