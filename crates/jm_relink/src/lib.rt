//! An image as a source of modules: the modules whose `module-info.class` stands in it, with their
//! files, and the resources that the files of chosen modules are. The index tells which files there
//! are and where their contents stand; of these only the descriptors' are looked at.
#![tactic(auto)]

mod choosing;
mod contents;
mod entries;
mod fault;
mod gathering;
mod groups;
mod judging;
mod lists;
mod modules;
mod names;
mod packages;
mod path;

pub use choosing::{ChosenFile, chosen_files};
pub use entries::{ModuleEntries, module_entries};
pub use fault::{GatherFault, RelinkFault};
pub use gathering::gather;
pub use modules::{ImageFile, ImageModules, modules_for, modules_of, modules_with};
pub use path::ImagePath;
