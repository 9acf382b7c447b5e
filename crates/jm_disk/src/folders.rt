//! The names of the files below a folder of the system.
ghost use Rattle.std.specs.Prelude.{◌∷◌, ◌++◌, [], All, IsUtf8, IfOk, IsTrue};
ghost use Rattle.jm_outside.specs.Files.{Rising};

use crate::beside::unfinished_at;
use crate::file_error::{FileError, Reason};
use crate::paths::{Kind, is_absence, is_same, kind_at, listed_at, text_of};
use jm_bytes::{List, Text};
use std::alloc::Global;
use std::fs;
use std::fs::{File, ReadDir};
use std::rt::Files;

/// The most files and folders that may stand below a folder.
const MOST_ENTRIES: u32 = 16_777_216;

/// What is known of a tree of folders: the files that were found, the folders still to be listed,
/// each with a slash at its end, and how many files and folders were met.
#[derive(Drop)]
struct Tree {
    names: Vec<String>,
    folders: Vec<String>,
    entry_count: u32,
}

/// The names of the files below a folder, rising.
pub fn names_in<R: Files<File = File> + AllocGlobal>(
    rt: &R,
    alloc: Global,
    folder: &[u8],
) -> Result<List<Text>, FileError>
    ensures rising { IfOk result Rising }
    ensures texts { IfOk result (All IsUtf8) }
{
    let folder = text_of(folder)?;
    let mut tree = Tree {
        names: Vec::new(alloc),
        folders: Vec::new(alloc),
        entry_count: 0,
    };
    tree.folders.push(String::new(alloc))?;
    // Each folder but the first was met in one before it.
    for _ in 0..=MOST_ENTRIES {
        let Some(inner) = tree.folders.pop() else {
            break;
        };
        let path = format!(in alloc; "{folder}/{inner}")?;
        let error = match list_at(rt, alloc, path.as_str(), inner.as_str(), &mut tree) {
            Ok(true) => continue,
            Ok(false) if inner.is_empty() => break,
            Ok(false) => FileError::from(Reason::Vanished),
            Err(e) => e,
        };
        let place = path.as_str().trim_end_matches('/');
        return Err(error.at(String::from_str(alloc, place).ok()));
    }
    in_order(alloc, tree.names)
}

/// Lists the folder at a path. Answers false where it isn't there. One that is removed meanwhile
/// gives no more names and no error, so what stands at the path is looked at before, and after, as
/// long as the folder is open.
fn list_at<R: Files<File = File> + AllocGlobal>(
    rt: &R,
    alloc: Global,
    path: &str,
    inner: &str,
    tree: &mut Tree,
) -> Result<bool, FileError> {
    let Some(before) = listed_at(rt, path)? else {
        return Ok(false);
    };
    let mut entries = match fs::read_dir(&rt, path) {
        Ok(entries) => entries,
        Err(e) if is_absence(e.kind()) => return Ok(false),
        Err(e) => return Err(FileError::from(e)),
    };
    add_entries(rt, alloc, &mut entries, inner, tree)?;
    let after = listed_at(rt, path)?;
    drop(entries);
    match after {
        Some(after) if is_same(&before, &after) => Ok(true),
        Some(_) | None => Err(FileError::from(Reason::Vanished)),
    }
}

/// Adds what stands in an open folder to its tree.
fn add_entries<'a, R: Files<File = File> + AllocGlobal>(
    rt: &'a R,
    alloc: Global,
    entries: &mut ReadDir<&'a R, Global>,
    inner: &str,
    tree: &mut Tree,
) -> Result<(), FileError> {
    for _ in 0..=MOST_ENTRIES {
        let Some(entry) = entries.next() else {
            break;
        };
        let entry = entry?;
        let kind = match kind_at(rt, entry.path()) {
            Ok(kind) => kind,
            Err(e) => {
                let place = entry.path().to_string_lossy();
                return Err(e.at(String::from_str(alloc, place).ok()));
            }
        };
        if tree.entry_count >= MOST_ENTRIES {
            return Err(FileError::from(Reason::TooMany));
        }
        tree.entry_count += 1;
        let name = entry.file_name();
        if let Some(reason) = unfinished_at(rt, entry.path(), name) {
            let place = entry.path().to_string_lossy();
            return Err(FileError::from(reason).at(String::from_str(alloc, place).ok()));
        }
        match kind {
            Kind::File => tree.names.push(format!(in alloc; "{inner}{name}")?)?,
            Kind::Folder => tree.folders.push(format!(in alloc; "{inner}{name}/")?)?,
        }
    }
    Ok(())
}

/// The names in byte order, each once.
fn in_order(alloc: Global, names: Vec<String>) -> Result<List<Text>, FileError>
    ensures rising { IfOk result Rising }
    ensures texts { IfOk result (All IsUtf8) }
{
    let mut sorted = names;
    sorted.sort_unstable();
    let mut rising = List::new(alloc);
    for name in sorted {
        if !is_above(rising.as_slice(), name.as_bytes()) {
            continue;
        }
        rising.push(Text::from_vec(name.into_bytes()))?;
    }
    Ok(rising)
}

/// Whether a name stands above the last of those that rise.
fn is_above(names: &[Text], name: &[u8]) -> bool
    ensures { IsTrue result → Rising names.now → Rising (names.now ++ name.now ∷ []) }
{
    match names.last() {
        Some(last) => last.as_slice().cmp(name).is_lt(),
        None => true,
    }
}
