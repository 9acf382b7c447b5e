ghost use Rattle.std.specs.Prelude.{◌≡◌, ◌≤◌, IfOk, drop, length};

use jm_bytes::{NoMemory, Text};
use jm_filed::TakenName;
use std::alloc::Global;
use std::marker::Model;

/// The path of a file within its module: what stands in the name of its entry after the module. It
/// borrows the name from the index.
#[derive(Debug, Drop)]
pub struct ImagePath<'a> {
    name: TakenName<'a>,
    before: usize,
}

impl<'a> Model for ImagePath<'a> {
    ghost use Rattle.std.specs.Prelude.{List, ℕ, ◌≤◌, drop, length};

    ghost Value = { List ℕ };

    ghost view = { λ a. drop a.before a.name };

    ghost invariant = { λ a. a.before ≤ length a.name };
}

impl<'a> ImagePath<'a> {
    /// The path that stands in a name after that many bytes.
    pub(crate) fn of(name: TakenName<'a>, before: usize) -> ImagePath<'a>
        requires { before ≤ length name }
        ensures { result ≡ drop before name.entry }
    {
        ImagePath { name, before }
    }

    /// A text of its own with the same bytes.
    pub fn to_text(&self, alloc: Global) -> Result<Text, NoMemory>
        ensures { IfOk result (λ text. text ≡ self.now) }
    {
        let name = self.name.view().to_text(alloc)?;
        let (_, path) = name.as_slice().split_at(self.before);
        Text::copy_of(alloc, path)
    }
}
