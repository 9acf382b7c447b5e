/// Why nothing is handed out for a path.
#[derive(Clone, Copy, Debug, PartialEq, Eq)]
pub enum JrtError {
    /// Nothing stands at the path.
    NotThere,
    /// The content of the node that was read has a bad word, and the first one begins at this place
    /// of it, in bytes.
    BadNode(usize),
    /// A file or a link stands at the path.
    NotFolder,
}
