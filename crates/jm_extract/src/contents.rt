//! The contents of entries, read from the file of their image.
ghost use Rattle.std.specs.Prelude.{◌≡◌, ◌≤◌, ◌+◌, ◌⊎◌, ℕ, List, IfOk, IsOk, IsErrOf, IsUtf8};
ghost use Rattle.std.specs.Prelude.{IsFalse, length, take};
ghost use Rattle.jm_outside.specs.Outcome.{CountsFaults};
ghost use Rattle.jm_filed.specs.Filed.{IsAt};
ghost use Rattle.jm_extract.specs.Filed.{AreContents, is_made_at, sizes};

use crate::file_paths::is_made_at;
use jm_bytes::{List, Text};
use jm_filed::{TakenEntry, read_extent};
use jm_outside::{Shelf, ShelfError};
use std::alloc::Global;

/// The contents of all entries, in their order.
fn all_contents<S: Shelf>(
    alloc: Global,
    path: &[u8],
    entries: &[TakenEntry],
    shelf: &mut S,
) -> Result<List<Text>, ShelfError>
    requires path { IsUtf8 path.now }
    ensures files { S.files shelf.new ≡ S.files shelf.old }
    ensures contents { (b : List ℕ) → IsAt (S.files shelf.old) path.now b
        → IfOk result (λ texts. AreContents (S.files shelf.old) b entries.now texts) }
    ensures all { IfOk result (λ texts. length texts ≡ length entries.now) }
    ensures handed { S.handed shelf.new ≤ S.handed shelf.old + sizes entries.now }
    ensures faults { CountsFaults (S.faults shelf.old) (S.faults shelf.new) (IsOk result)
        (IsErrOf result ShelfError.Failed) }
{
    let mut texts = List::with_capacity(alloc, entries.len())?;
    for entry in entries {
        let mut text = Text::new(alloc);
        read_extent(alloc, path, entry.content, &mut text, shelf)?;
        texts.push(text)?;
    }
    Ok(texts)
}

/// The contents that are kept in memory while files are made: those of all entries if one of their
/// files takes the place of the image's own, at `path`, and else none.
pub fn kept_contents<S: Shelf>(
    alloc: Global,
    path: &[u8],
    dir: &[u8],
    entries: &[TakenEntry],
    shelf: &mut S,
) -> Result<List<Text>, ShelfError>
    requires path { IsUtf8 path.now }
    ensures files { S.files shelf.new ≡ S.files shelf.old }
    ensures contents { (b : List ℕ) → IsAt (S.files shelf.old) path.now b
        → IfOk result (λ texts. AreContents (S.files shelf.old) b entries.now texts) }
    ensures enough { IfOk result (λ texts. (length entries.now ≤ length texts)
        ⊎ IsFalse (is_made_at path.now dir.now entries.now)) }
    ensures handed { S.handed shelf.new ≤ S.handed shelf.old + sizes entries.now }
    ensures kept { IfOk result (λ texts. S.handed shelf.new
        ≤ S.handed shelf.old + sizes (take (length texts) entries.now)) }
    ensures faults { CountsFaults (S.faults shelf.old) (S.faults shelf.new) (IsOk result)
        (IsErrOf result ShelfError.Failed) }
{
    if is_made_at(alloc, path, dir, entries)? {
        all_contents(alloc, path, entries, shelf)
    } else {
        Ok(List::new(alloc))
    }
}
