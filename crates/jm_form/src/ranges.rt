/// Where one entry's content stands, in bytes from the front of the contents (jimage 1.0). Ranges
/// are ordered by their start.
#[derive(Clone, Copy, Debug, PartialEq, Eq, PartialOrd, Ord)]
pub struct Range {
    /// The place of the first byte.
    pub start: u64,
    /// The slot of the entry, from 0.
    pub slot: u32,
    /// The place behind the last byte.
    pub end: u64,
}
