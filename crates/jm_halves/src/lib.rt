//! A list worked off in pieces on several threads, with the answer that one thread gives.
//!
//! Of `n` items and `jobs` jobs there are `p` pieces, the lesser of the two numbers. Piece `k` has
//! the items from `k * n / p` up to and without `(k + 1) * n / p`, rounded down. It passes the gate
//! once with its number and then works its items in order.
//!
//! The pieces run at the same time, one on the caller's thread and each other one on a thread of
//! its own. Where a thread can't be started, the thread that asked for it works those pieces too,
//! after its own. With one job no thread is started, and over no item no gate is passed. There is
//! no lock, and nothing is shared that changes: each piece's answer is taken in by a join.
#![tactic(auto)]

mod gate;
mod map;
mod run;
mod search;
mod workers;

pub use gate::{Gate, NoGate};
pub use map::map_halves;
pub use search::{first_between, first_some};
pub use workers::Workers;
