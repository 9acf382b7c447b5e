//! The descriptors of an image's modules, read as parts of its file.
ghost use Rattle.std.specs.Prelude.{◌≡◌, ◌≤◌, ◌+◌, IfOk, IsErrOf, IsOk, IsTrue, IsUtf8, OnOk};
ghost use Rattle.jm_filed.specs.Filed.{IsReadAt};
ghost use Rattle.jm_outside.specs.Outcome.{CountsFaults};
ghost use Rattle.jm_modset.specs.Infos.{AreInfosRead, info_sizes};

use jm_bytes::{List, Text};
use jm_filed::{Extent, read_extent};
use jm_outside::{Shelf, ShelfError};
use jm_relink::ModuleEntries;
use std::alloc::Global;

/// The content at an extent of a file.
pub(crate) fn read_content<S: Shelf>(
    alloc: Global,
    path: &[u8],
    extent: Extent,
    shelf: &mut S,
) -> Result<Text, ShelfError>
    requires path { IsUtf8 path.now }
    ensures files { S.files shelf.new ≡ S.files shelf.old }
    ensures read { IfOk result (IsReadAt (S.files shelf.old) path.now extent) }
    ensures handed { S.handed shelf.new ≤ S.handed shelf.old + extent.size }
    ensures whole { OnOk result (IsTrue (S.whole shelf.new)) }
    ensures faults { CountsFaults (S.faults shelf.old) (S.faults shelf.new) (IsOk result)
        (IsErrOf result ShelfError.Failed) }
{
    let mut text = Text::new(alloc);
    read_extent(alloc, path, extent, &mut text, shelf)?;
    Ok(text)
}

/// The contents of the descriptors of an image's modules, in their order; `path` is that of its
/// file.
pub fn read_infos<S: Shelf>(
    alloc: Global,
    path: &[u8],
    entries: &[ModuleEntries],
    shelf: &mut S,
) -> Result<List<Text>, ShelfError>
    requires path { IsUtf8 path.now }
    ensures files { S.files shelf.new ≡ S.files shelf.old }
    ensures infos { IfOk result (AreInfosRead (S.files shelf.old) path.now entries.now) }
    ensures handed { S.handed shelf.new ≤ S.handed shelf.old + info_sizes entries.now }
    ensures faults { CountsFaults (S.faults shelf.old) (S.faults shelf.new) (IsOk result)
        (IsErrOf result ShelfError.Failed) }
{
    let mut infos = List::with_capacity(alloc, entries.len())?;
    for module in entries {
        infos.push(read_content(alloc, path, module.info, shelf)?)?;
    }
    Ok(infos)
}
