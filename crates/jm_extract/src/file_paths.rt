//! The paths at which files of entries are made.
ghost use Rattle.std.specs.Prelude.{◌≡◌, IfOk};
ghost use Rattle.jm_extract.specs.Extracted.{path_of};
ghost use Rattle.jm_extract.specs.Filed.{is_made_at};

use jm_bytes::{NoMemory, Text, extend};
use jm_filed::{TakenEntry, TakenName};
use jm_names::to_utf8;
use std::alloc::Global;

/// The path of an entry's file: the directory, and the name in UTF-8, which begins with a slash.
pub fn path_of(alloc: Global, dir: &[u8], name: &TakenName) -> Result<Text, NoMemory>
    ensures { IfOk result (λ path. path ≡ path_of dir.now name.now) }
{
    let name = name.view().to_text(alloc)?;
    let name = to_utf8(alloc, name.as_slice())?;
    let mut path = Vec::new(alloc);
    extend(&mut path, dir)?;
    extend(&mut path, name.as_slice())?;
    Ok(Text::from_vec(path))
}

/// Whether the file of one of the entries is made at this path. No name takes memory for it where
/// the path doesn't begin with the directory.
pub fn is_made_at(
    alloc: Global,
    path: &[u8],
    dir: &[u8],
    entries: &[TakenEntry],
) -> Result<bool, NoMemory>
    ensures { IfOk result (λ made. made ≡ is_made_at path.now dir.now entries.now) }
{
    if !path.starts_with(dir) {
        return Ok(false);
    }
    for entry in entries {
        if path_of(alloc, dir, &entry.name)?.as_slice() == path {
            return Ok(true);
        }
    }
    Ok(false)
}
