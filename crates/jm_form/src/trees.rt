//! The nodes of the two trees, as data.

use jm_bytes::{List, Text};

/// A node of the trees below `/modules` and `/packages` (JEP 220).
#[derive(Debug, Drop)]
pub struct TreeNode {
    /// The name of its entry, such as `/modules/java.base`.
    pub name: Text,
    /// What its content tells.
    pub holds: Holds,
}

/// What a node holds.
#[derive(Debug, Drop)]
pub enum Holds {
    /// The names of the entries of its children, rising by their last part.
    Children(List<Text>),
    /// The modules that have the package, rising.
    Owners(List<Owner>),
}

/// A module that has a package.
#[derive(Debug, Drop)]
pub struct Owner {
    /// None of the package's folders directly holds a resource of the module.
    pub empty: bool,
    /// The module's name.
    pub module: Text,
}
