//! The plug-ins of `link` (JEP 282), which act on the resources before they are written.
#![tactic(auto)]

mod chain;
mod classes;
mod exclusion;
mod names;
mod order;
mod packages;
mod places;
mod system_modules;

pub use chain::{BadClass, apply, apply_for};
