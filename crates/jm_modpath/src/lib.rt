//! The modules that the directories of a module path show: the folders with a descriptor, with
//! what it says, their files and their class packages.
#![tactic(auto)]

mod directory;
mod folders;
mod found;
mod modules;
mod names;
mod packages;
mod path;
mod refusal;
mod stops;
mod visible;

pub use folders::names_of_folder;
pub use modules::VisibleModules;
pub use names::{inside, resource_name};
pub use path::visible_modules;
pub use refusal::{PathRefusal, PathStop};
pub use visible::{ModuleFolder, VisibleModule};
