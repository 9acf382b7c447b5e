use crate::child_list::ChildList;

/// What stands at a path of the two trees (JEP 220).
#[derive(Drop)]
pub enum Node<'a> {
    /// A folder, by its children.
    Folder(ChildList<'a>),
    /// A file, by its bytes.
    File(&'a [u8]),
    /// A link to `/modules/m`, by the module's name m.
    Link(&'a [u8]),
}
