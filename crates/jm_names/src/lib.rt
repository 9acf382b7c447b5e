//! Names of an image: their four pieces, their checks and their hash.
#![tactic(auto)]

mod characters;
mod check;
mod forms;
mod hashing;
mod named;
mod nodes;
mod packages;
mod pieces;
mod printed;

pub use check::{NameFault, check_name};
pub use forms::{to_modified, to_utf8};
pub use hashing::{DEFAULT_SEED, HASH_FACTOR, hash, hash_of_state, hash_pieces, state_after};
pub use named::{HasName, sorted_by_name};
pub use nodes::is_node;
pub use packages::dotted;
pub use pieces::{Pieces, cut_at_first, cut_at_last, shared_len, split};
pub use printed::{extend_shown, extend_shown_text};
