use jm_bytes::{List, Text};
use jm_modinfo::Descriptor;

/// A module that may be linked.
#[derive(Debug, Drop)]
pub struct Candidate {
    /// What its descriptor says.
    pub descriptor: Descriptor,
    /// The packages in which it has classes, with dots between their parts, rising.
    pub packages: List<Text>,
}
