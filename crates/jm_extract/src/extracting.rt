//! The taken entries as files below a directory.
ghost use Rattle.std.specs.Prelude.{◌≡◌, ◌≤◌, ◌+◌, ◌∷◌, [], ℕ, List, All, IsUtf8, IsOk, IsTrue};
ghost use Rattle.std.specs.Prelude.{OnOk, IsErrOf, map, option_map};
ghost use Rattle.jm_form.specs.Head.{IsFileOf};
ghost use Rattle.jm_names.specs.NameFaults.{IsSound};
ghost use Rattle.jm_outside.specs.Outcome.{CountsFaults};
ghost use Rattle.jm_reader.specs.Walk.{IsLater};
ghost use Rattle.jm_filed.specs.Filed.{IsAt, IsFiled};
ghost use Rattle.jm_extract.specs.Extracted.{Extracts, Makes, extracted, taken_size, write_of};
ghost use Rattle.jm_extract.specs.Extracted.{writes_of};
ghost use Rattle.jm_extract.specs.Filed.{HasContent, sizes, unkept_size};
ghost use Rattle.jm_extract.specs.Stops.{stop_of};
ghost use Rattle.jm_filed.specs.Taken.{content_in, taken_as};

use crate::contents::kept_contents;
use crate::file_paths::path_of;
use crate::refusals::refusal_of;
use jm_bytes::{List, Meter, NoMemory, Text};
use jm_filed::{FiledImage, TakenEntry, read_extent, taken};
use jm_outside::{Shelf, ShelfError, make_file};
use jm_pattern::Pattern;
use jm_texts::Refusal;
use std::alloc::Global;
use std::sync::ledger::Ledger;

/// Why an extraction stopped.
#[derive(Debug, Drop)]
pub enum ExtractStop {
    /// The taken entries are refused.
    Refused(Refusal),
    /// A call of the shelf failed.
    Outside,
    /// No memory was found.
    Memory,
}

impl From<NoMemory> for ExtractStop {
    ghost use Rattle.jm_extract.specs.declared.extracting.ExtractStop.TheVariants as stop;

    ghost from_gives = { λ _ is. is ≡ stop.Memory };

    fn from(_: NoMemory) -> ExtractStop {
        ExtractStop::Memory
    }
}

impl From<ShelfError> for ExtractStop {
    ghost from_gives = { λ error is. is ≡ stop_of error };

    fn from(error: ShelfError) -> ExtractStop {
        match error {
            ShelfError::Failed => ExtractStop::Outside,
            ShelfError::Memory => ExtractStop::Memory,
        }
    }
}

/// What is taken out of an image, and the directory for it.
#[derive(Clone, Copy)]
pub struct Extraction<'w> {
    /// Where files are made, in UTF-8.
    pub dir: &'w [u8],
    /// Patterns, of which one must match a name; None takes all resources.
    pub include: &'w Option<List<Pattern>>,
}

/// Where the file of an image is, and where files are made of it.
#[derive(Clone, Copy)]
struct Making<'m> {
    alloc: Global,
    path: &'m [u8],
    dir: &'m [u8],
}

/// Makes the file of an entry: of the content that is kept of it, or else of the one that is read
/// from the image's file, into a text that is used again.
fn make_entry<S: Shelf>(
    making: Making,
    entry: &TakenEntry,
    kept: Option<&Text>,
    text: &mut Text,
    shelf: &mut S,
) -> Result<(), ShelfError>
    requires path { IsUtf8 making.path.now }
    requires text { IsUtf8 making.dir.now }
    requires name { IsSound entry.now.name }
    ensures makes { (b : List ℕ)
        → HasContent (S.files shelf.old) making.entry.path.now b (content_in b entry.now)
        (option_map (λ t. t.now) kept.entry)
        → Makes result (write_of making.entry.dir.now (taken_as b entry.now) ∷ [])
        (S.files shelf.old) (S.files shelf.new) }
    ensures handed { S.handed shelf.new ≤ S.handed shelf.old + unkept_size entry.now kept.entry }
    ensures faults { CountsFaults (S.faults shelf.old) (S.faults shelf.new) (IsOk result)
        (IsErrOf result ShelfError.Failed) }
{
    let Making { alloc, path, dir } = making;
    let made = path_of(alloc, dir, &entry.name)?;
    match kept {
        Some(content) => make_file(alloc, shelf, made.as_slice(), content.as_slice()),
        None => {
            read_extent(alloc, path, entry.content, text, shelf)?;
            make_file(alloc, shelf, made.as_slice(), text.as_slice())
        }
    }
}

/// Makes the files of the entries and ends the making of files. A content is read when its file is
/// made, but all before the first where one of the files takes the place of the image's own.
fn make_files<S: Shelf>(
    alloc: Global,
    path: &[u8],
    dir: &[u8],
    entries: &[TakenEntry],
    shelf: &mut S,
) -> Result<(), ShelfError>
    requires path { IsUtf8 path.now }
    requires text { IsUtf8 dir.now }
    requires names { All (λ t. IsSound t.name) entries.now }
    ensures makes { (b : List ℕ) → IsAt (S.files shelf.old) path.now b
        → Makes result (writes_of dir.now (map (taken_as b) entries.now))
        (S.files shelf.old) (S.files shelf.new) }
    ensures whole { OnOk result (IsTrue (S.whole shelf.new)) }
    ensures durable { OnOk result (IsTrue (S.durable shelf.new)) }
    ensures handed { S.handed shelf.new ≤ S.handed shelf.old + sizes entries.now }
    ensures faults { CountsFaults (S.faults shelf.old) (S.faults shelf.new) (IsOk result)
        (IsErrOf result ShelfError.Failed) }
{
    let contents = kept_contents(alloc, path, dir, entries, shelf)?;
    let kept = contents.as_slice();
    let making = Making { alloc, path, dir };
    let mut text = Text::new(alloc);
    for (place, entry) in entries.iter().enumerate() {
        make_entry(making, entry, kept.get(place), &mut text, shelf)?;
    }
    shelf.finish(alloc)
}

/// Makes, below the directory, a file of each entry that is taken, by rising name, ends the making
/// of files, and gives how many they are. A file's path is the directory and the name in UTF-8. Of
/// the image's file it takes the contents of these entries, each when its file is made; all of them
/// before the first, where one of the files takes its place.
///
/// It refuses a name that may not stand in an image, so none leads out of the directory, and then
/// a name that is another one's folder, before a content is taken. After a failure of the shelf
/// or want of memory some of the files stand, the last one whole or a front of it; other files are
/// as before.
pub fn extract<S: Shelf, R: Ledger>(
    alloc: Global,
    image: FiledImage,
    work: Extraction,
    shelf: &mut S,
    reads: &mut Meter<R>,
) -> Result<usize, ExtractStop>
    requires metered { reads.old.bytes ≡ image.index.now.bytes }
    requires path { IsUtf8 image.path.now }
    requires text { IsUtf8 work.dir.now }
    ensures extracts { (b : List ℕ)
        → IsFiled image.entry.index.now (S.files shelf.old) image.entry.path.now b
        → Extracts (extracted b work.entry.include.now) work.entry.dir.now result
        (S.files shelf.old) (S.files shelf.new) }
    ensures takes { (b : List ℕ)
        → IsFileOf image.entry.index.now.bytes image.entry.index.now.length b
        → S.handed shelf.new ≤ S.handed shelf.old + taken_size b work.entry.include.now }
    ensures whole { OnOk result (IsTrue (S.whole shelf.new)) }
    ensures durable { OnOk result (IsTrue (S.durable shelf.new)) }
    ensures faults { CountsFaults (S.faults shelf.old) (S.faults shelf.new) (IsOk result)
        (IsErrOf result ExtractStop.Outside) }
    ensures reads { IsLater reads.old reads.new }
{
    let _length = image.index.length();
    let Extraction { dir, include } = work;
    let taken = taken(alloc, image.index, include, reads)?;
    let entries = taken.as_slice();
    if let Some(refusal) = refusal_of(alloc, entries)? {
        return Err(ExtractStop::Refused(refusal));
    }
    make_files(alloc, image.path, dir, entries, shelf)?;
    Ok(entries.len())
}
