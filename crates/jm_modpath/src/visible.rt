use jm_bytes::{List, Text};
use jm_closure::Candidate;

/// A module that a module path shows.
#[derive(Debug, Drop)]
pub struct VisibleModule {
    /// The path of its folder.
    pub folder: Text,
    /// The bytes of its `module-info.class`, which were described.
    pub info: Text,
    /// Its files to any depth, each by its path within the folder.
    pub files: List<Text>,
    /// What its descriptor says, and its class packages.
    pub candidate: Candidate,
}

/// The folder of a module.
#[derive(Debug, Drop)]
pub struct ModuleFolder {
    /// Its path.
    pub path: Text,
    /// The bytes of its `module-info.class`, which were described.
    pub info: Text,
    /// The files in it to any depth, each by its path within it.
    pub files: List<Text>,
}
