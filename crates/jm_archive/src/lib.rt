//! Which files a jmod or a JAR has, by the names of its entries, and what a manifest says of them.
#![tactic(auto)]

mod choice;
mod cuts;
mod files;
mod kinds;
mod manifest;
mod places;

pub use files::{ArchiveFile, archive_files};
pub use kinds::ArchiveKind;
pub use manifest::says_multi_release;
pub use places::manifest_place;
