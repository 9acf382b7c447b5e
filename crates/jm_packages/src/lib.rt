//! The class of a module with the list of its packages, which a JVM wants of a module in an image.
#![tactic(auto)]

mod adding;
mod constants;
mod listed;
mod names;
mod room;

pub use adding::{add_packages, add_packages_for, list_packages_for, stays};
pub use names::is_package_name;
