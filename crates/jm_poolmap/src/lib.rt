//! Where the numbers of constants stand in a class, and which constants are live.
#![tactic(auto)]

mod attributes;
mod bodies;
mod finding;
mod forms;
mod frames;
mod instructions;
mod items;
mod marking;
mod members;
mod naming;
mod readings;
mod site;

pub use finding::{PoolMap, after_pool, pool_map};
pub use naming::name_sites;
pub use site::Site;
