//! The modules that a link finds: those of an image, and those of a module path that these don't
//! hide, with their files, whatever shows them; and the contents of the files that are linked.
#![tactic(auto)]

mod contents;
mod files;
mod infos;
mod roots;
mod set;

pub use contents::{ReadStop, read_contents};
pub use files::{Content, LinkFile, link_files};
pub use infos::read_infos;
pub use roots::roots_among;
pub use set::{EntryFiles, ModuleFiles, ModuleSet, joined};
