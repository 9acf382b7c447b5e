use jm_valid::Index;

/// An image in a file on a shelf: its index, which is open, and the path of the file, in UTF-8, in
/// which its contents are.
#[derive(Clone, Copy)]
pub struct FiledImage<'i, 'a> {
    /// The index.
    pub index: &'i Index<'a>,
    /// The path.
    pub path: &'i [u8],
}
