//! Patterns of names, by a rule of this project: `**` is any run of bytes, `*` a run without `/`,
//! `?` one byte other than `/`, and `\` takes the next byte as itself.
#![tactic(auto)]

mod index;
mod items;
mod matching;
mod numbers;
mod reading;
mod signs;

pub use index::PatternIndex;
pub use items::read_list;
pub use numbers::Numbers;
pub use signs::{Pattern, PatternFault, Sign, matches_any};
