use jm_bytes::{Order, Text};

/// What an image will be, but for the bytes of its resources.
#[derive(Debug, Drop)]
pub struct Draft {
    /// The order of the words.
    pub order: Order,
    /// The file up to the contents.
    pub index: Text,
    /// The contents of the nodes, which stand behind those of the resources.
    pub tail: Text,
    /// The length of the whole file in bytes.
    pub length: u64,
    /// How many slots the table has.
    pub slots: u32,
}

/// Why no image is made of a pool.
#[derive(Debug, Drop)]
pub enum PlanFault {
    /// This name is that of a folder of another resource.
    Clash(Text),
    /// There would be so many entries, nodes included; 1,048,576 are allowed.
    TooMany(u64),
    /// None of so many lengths has a table.
    NoTable(u32),
    /// The file would have so many bytes, or the number is 0 where its strings alone would have too
    /// many; 1,073,741,824 are allowed.
    TooLarge(u64),
}
