//! The folders of a directory that are modules, and their files, from the names below the
//! directory.
ghost use Rattle.std.specs.Prelude.{◌≡◌, ◌≤◌, All, IsUtf8, IfOk, length, take, drop};
ghost use Rattle.std.specs.Prelude.{IsTrue, IsFalse, option_map};
ghost use Rattle.jm_outside.specs.Files.{Rising};
ghost use Rattle.jm_bytes.specs.ByteOrder.{is_before};
ghost use Rattle.jm_modpath.specs.Finding.{folders_among, names_within};
ghost use Rattle.jm_modpath.specs.Modules.{folder_with_info};

use jm_bytes::{List, NoMemory, Text, copy_of, is_before};
use jm_form::rising;
use jm_names::cut_at_first;
use std::alloc::Global;

/// The folder of a file `FOLDER/module-info.class`.
fn folder_with_info(name: &[u8]) -> Option<&[u8]>
    ensures { option_map (λ folder. folder.now) result ≡ folder_with_info name.now }
{
    let (folder, file) = cut_at_first(b'/', name)?;
    if !folder.is_empty() && file == b"module-info.class".as_slice() {
        Some(folder)
    } else {
        None
    }
}

/// The folders with a descriptor, rising.
pub fn folders_among(alloc: Global, names: &[Text]) -> Result<List<Text>, NoMemory>
    requires { All IsUtf8 names.now }
    ensures folders { IfOk result (λ folders. folders ≡ folders_among names.now) }
    ensures texts { IfOk result (All IsUtf8) }
{
    let mut folders = Vec::new(alloc);
    for name in names {
        if let Some(folder) = folder_with_info(name.as_slice()) {
            folders.push(copy_of(alloc, folder)?)?;
        }
    }
    rising(alloc, folders)
}

/// How many of some rising names stand before a text.
fn place_of(names: &[Text], bound: &[u8]) -> usize
    requires { Rising names.now }
    ensures within { result ≤ length names.now }
    ensures before { All (λ name. IsTrue (is_before name bound.now)) (take result names.now) }
    ensures behind { All (λ name. IsFalse (is_before name bound.now)) (drop result names.now) }
{
    names.partition_point(|name| is_before(name.as_slice(), bound))
}

/// The part of rising names in which those of a folder lie side by side. It looks at the logarithm
/// of their number.
pub fn names_of_folder<'a>(
    alloc: Global,
    names: &'a [Text],
    folder: &[u8],
) -> Result<&'a [Text], NoMemory>
    requires { Rising names.now }
    ensures { IfOk result (λ part.
        names_within folder.now part.now ≡ names_within folder.now names.now) }
{
    let mut bound = Text::copy_of(alloc, folder)?;
    bound.push(b'/')?;
    let (_, from) = names.split_at(place_of(names, bound.as_slice()));
    // The byte after the slash.
    let mut end = Text::copy_of(alloc, folder)?;
    end.push(b'0')?;
    let (part, _) = from.split_at(place_of(from, end.as_slice()));
    Ok(part)
}

/// The names within a folder of a directory, from the names below the directory. It looks at no
/// others, but for the logarithm of their number.
pub fn names_within(alloc: Global, names: &[Text], folder: &[u8]) -> Result<List<Text>, NoMemory>
    requires rising { Rising names.now }
    requires texts { All IsUtf8 names.now }
    requires folder { IsUtf8 folder.now }
    ensures names { IfOk result (λ files. files ≡ names_within folder.now names.now) }
    ensures texts { IfOk result (All IsUtf8) }
{
    let mut front = Text::copy_of(alloc, folder)?;
    front.push(b'/')?;
    let mut rests = List::new(alloc);
    for name in names_of_folder(alloc, names, folder)? {
        if let Some(rest) = name.as_slice().strip_prefix(front.as_slice()) {
            rests.push(Text::copy_of(alloc, rest)?)?;
        }
    }
    Ok(rests)
}
