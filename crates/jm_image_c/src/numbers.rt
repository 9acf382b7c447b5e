/// What a check found.
#[repr(C)]
#[derive(Clone, Copy, Debug, PartialEq, Eq)]
pub struct Verdict {
    /// 0 where the bytes are valid, 1 to 11 for a damage, 12 where no memory was found.
    pub kind: u32,
    /// The damage's first number, or 0.
    pub first: u32,
    /// The damage's second number, or 0.
    pub second: u32,
}

/// Where a content stands in the bytes of an image.
#[repr(C)]
#[derive(Clone, Copy, Debug, PartialEq, Eq)]
pub struct Content {
    /// The place of its first byte; 0 where there is none.
    pub place: u64,
    /// Its size in bytes; 0 where there is none.
    pub size: u64,
    /// There is such a content.
    pub found: bool,
}

/// What stands at a path of the two trees.
#[repr(C)]
#[derive(Clone, Copy, Debug, PartialEq, Eq)]
pub struct Standing {
    /// 0 for nothing, 1 for a folder, 2 for a file, 3 for a link, 4 for a bad node.
    pub kind: u32,
    /// The number of the folder's children; the size of the file, or of the module's name that the
    /// link has, in bytes; the place of the bad word in the node's content; 0 for nothing.
    pub number: u64,
}

/// The first owner of a package for which it isn't empty.
#[repr(C)]
#[derive(Clone, Copy, Debug, PartialEq, Eq)]
pub struct Owner {
    /// 0 for nothing, 1 for an owner, 2 where the package is empty for all, 4 for a bad node.
    pub kind: u32,
    /// The size of the owner's name in bytes; the place of the bad word in the node's content; else
    /// 0.
    pub number: u64,
}

/// How many entries and slots an image has.
#[repr(C)]
#[derive(Clone, Copy, Debug, PartialEq, Eq)]
pub struct Totals {
    /// The entries.
    pub entries: u32,
    /// The slots, each of which holds one entry or none.
    pub slots: u32,
}

/// Where an entry's texts and its content stand in the bytes of an image. Each text ends at the
/// next zero byte.
#[repr(C)]
#[derive(Clone, Copy, Debug, PartialEq, Eq)]
pub struct Entry {
    /// The place of the module of its name.
    pub module: u64,
    /// The place of the parent of its name.
    pub parent: u64,
    /// The place of the base of its name.
    pub base: u64,
    /// The place of the extension of its name.
    pub ext: u64,
    /// The place of its content.
    pub place: u64,
    /// The size of its content in bytes.
    pub size: u64,
    /// The slot holds an entry; else all numbers are 0.
    pub found: bool,
}
