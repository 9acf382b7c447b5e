//! A drafted image, put into a file.
ghost use Rattle.std.specs.Prelude.{◌≡◌, ◌++◌, ℕ, List, Option, Some, IsUtf8};
ghost use Rattle.std.specs.Prelude.{OnOk, OnErr, IsOk, IsErrOf};
ghost use Rattle.jm_form.specs.Layout.{contents_text, layout};
ghost use Rattle.jm_outside.specs.Files.{Files};
ghost use Rattle.jm_outside.specs.Outcome.{CountsFaults};
ghost use Rattle.jm_writer.specs.Drafts.{IsDraft};
ghost use Rattle.jm_outside.specs.Holds.{Holds, HoldsPart};

use crate::draft::Draft;
use jm_outside::{Shelf, ShelfError};
use jm_pool::Pool;
use std::alloc::Global;

/// Adds the bytes of each resource to the end of a file, one call for each.
fn append_resources<S: Shelf>(
    alloc: Global,
    pool: &Pool,
    shelf: &mut S,
    path: &[u8],
) -> Result<(), ShelfError>
    requires text { IsUtf8 path.now }
    ensures ok { (base : Option Files) (front : List ℕ)
        → Holds base path.now front (S.files shelf.old)
        → OnOk result (Holds base path.now (front ++ contents_text pool.now) (S.files shelf.new)) }
    ensures err { (base : Option Files) (front : List ℕ)
        → Holds base path.now front (S.files shelf.old) → OnErr result
        (HoldsPart base path.now (front ++ contents_text pool.now) (S.files shelf.new)) }
    ensures faults { CountsFaults (S.faults shelf.old) (S.faults shelf.new) (IsOk result)
        (IsErrOf result ShelfError.Failed) }
    ensures handed { S.handed shelf.new ≡ S.handed shelf.old }
{
    for place in 0..pool.len() {
        let (_, bytes) = pool.at(place);
        shelf.append(alloc, path, bytes)?;
    }
    Ok(())
}

/// Writes the image of a pool to the file at a path: the index, each resource and the tail, one
/// call for each. A resource isn't copied.
///
/// After a refusal the file is as before, or it holds a front of the image; others are as before.
pub fn write<S: Shelf>(
    alloc: Global,
    draft: &Draft,
    pool: &Pool,
    shelf: &mut S,
    path: &[u8],
) -> Result<(), ShelfError>
    requires draft { IsDraft draft.now.order pool.now draft.now }
    requires text { IsUtf8 path.now }
    ensures ok { OnOk result ((image : List ℕ) × (layout draft.now.order pool.now ≡ Some image)
        × Holds (S.files shelf.old) path.now image (S.files shelf.new)) }
    ensures err { OnErr result ((image : List ℕ) × (layout draft.now.order pool.now ≡ Some image)
        × HoldsPart (S.files shelf.old) path.now image (S.files shelf.new)) }
    ensures faults { CountsFaults (S.faults shelf.old) (S.faults shelf.new) (IsOk result)
        (IsErrOf result ShelfError.Failed) }
    ensures handed { S.handed shelf.new ≡ S.handed shelf.old }
{
    shelf.create(alloc, path)?;
    shelf.append(alloc, path, draft.index.as_slice())?;
    append_resources(alloc, pool, shelf, path)?;
    shelf.append(alloc, path, draft.tail.as_slice())
}
