//! What stands at an extent of an image's file.
ghost use Rattle.std.specs.Prelude.{◌≡◌, ◌≤◌, ◌+◌, ℕ, List, IsErrOf, IsOk, IsTrue, IsUtf8, OnOk};
ghost use Rattle.jm_outside.specs.Outcome.{CountsFaults, Shows};
ghost use Rattle.jm_filed.specs.Filed.{IsAt, IsReadAt, content_at};

use crate::extent::Extent;
use jm_bytes::Text;
use jm_outside::{Shelf, ShelfError};
use std::alloc::Global;

/// Reads the content at an extent of the file at a path into a text, in place of what it had.
pub fn read_extent<S: Shelf>(
    alloc: Global,
    path: &[u8],
    extent: Extent,
    text: &mut Text,
    shelf: &mut S,
) -> Result<(), ShelfError>
    requires path { IsUtf8 path.now }
    ensures files { S.files shelf.new ≡ S.files shelf.old }
    ensures read { OnOk result (IsReadAt (S.files shelf.old) path.now extent text.new) }
    ensures content { (b : List ℕ) → IsAt (S.files shelf.old) path.now b
        → OnOk result (Shows (S.files shelf.old) (λ files. text.new ≡ content_at b extent)) }
    ensures whole { OnOk result (IsTrue (S.whole shelf.new)) }
    ensures handed { S.handed shelf.new ≤ S.handed shelf.old + extent.size }
    ensures faults { CountsFaults (S.faults shelf.old) (S.faults shelf.new) (IsOk result)
        (IsErrOf result ShelfError.Failed) }
{
    shelf.read_exact(alloc, path, extent.at, extent.size as usize, text)
}
