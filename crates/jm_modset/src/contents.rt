//! The contents of the files that are linked, as they are read of a shelf.
ghost use Rattle.std.specs.Prelude.{◌≡◌, ◌≢◌, ◌≤◌, ◌+◌, ℕ, List, All, AllPairs, IfOk, IsErrOf};
ghost use Rattle.std.specs.Prelude.{IsOk, IsTrue, IsUtf8, OnOk, Some, length};
ghost use Rattle.jm_modpath.specs.Modules.{bytes_at};
ghost use Rattle.jm_outside.specs.Files.{Files};
ghost use Rattle.jm_outside.specs.Outcome.{CountsFaults, Shows};
ghost use Rattle.jm_modset.specs.declared.files.Content.TheVariants.{File, Part};
ghost use Rattle.jm_modset.specs.Files.{file_names};
ghost use Rattle.jm_modset.specs.Parts.{AfterRead, AreReadAs, IsContentOf, IsSizedBy, IsToldIn};
ghost use Rattle.jm_modset.specs.Parts.{LacksSuch, OnlyLacks, PathIsText, read_size, read_sizes};

use crate::files::{Content, LinkFile};
use crate::infos::read_content;
use jm_bytes::{List, NoMemory, Text};
use jm_filed::Extent;
use jm_outside::{Shelf, ShelfError};
use jm_pool::Pool;
use std::alloc::Global;

/// Why contents weren't had.
#[derive(Debug, Drop)]
pub enum ReadStop {
    /// The file at this path was listed and isn't there.
    NotThere(Text),
    /// A call of the shelf failed.
    Outside,
    /// No memory was found.
    Memory,
}

impl From<ShelfError> for ReadStop {
    ghost use Rattle.jm_modset.specs.Parts.{stop_of};

    ghost from_gives = { λ error stop. stop ≡ stop_of error };

    fn from(error: ShelfError) -> ReadStop {
        match error {
            ShelfError::Failed => ReadStop::Outside,
            ShelfError::Memory => ReadStop::Memory,
        }
    }
}

impl From<NoMemory> for ReadStop {
    ghost use Rattle.jm_modset.specs.declared.contents.ReadStop.TheVariants.{Memory};

    ghost from_gives = { λ _ stop. stop ≡ Memory };

    fn from(_: NoMemory) -> ReadStop {
        ReadStop::Memory
    }
}

/// The bytes of a file of its own. It is read in any case: a file that is gone, or whose reading
/// fails, is none of an image.
fn read_file<S: Shelf>(
    alloc: Global,
    path: Text,
    described: Option<Text>,
    shelf: &mut S,
) -> Result<Text, ReadStop>
    requires text { IsUtf8 path }
    requires told { Shows (S.files shelf.old) (λ told. IsToldIn told (File path) described) }
    ensures files { S.files shelf.new ≡ S.files shelf.old }
    ensures content { (image : List ℕ) → IfOk result
        (IsContentOf (S.files shelf.old) image (File path) described) }
    ensures lacks { LacksSuch (S.files shelf.old) (λ c. c ≡ File path) result }
    ensures takes { (told : Files) → S.files shelf.old ≡ Some told
        → S.handed shelf.new ≤ S.handed shelf.old + length (bytes_at told path) }
    ensures whole { AfterRead (IsTrue (S.whole shelf.new)) result }
    ensures faults { CountsFaults (S.faults shelf.old) (S.faults shelf.new) (IsOk result)
        (IsErrOf result ReadStop.Outside) }
{
    match shelf.read(alloc, path.as_slice())? {
        // What was described decided the closure, and may be another text by now.
        Some(bytes) => Ok(described.unwrap_or(bytes)),
        None => Err(ReadStop::NotThere(path)),
    }
}

/// The bytes of a part of an image, which aren't read if they were described.
fn read_part<S: Shelf>(
    alloc: Global,
    image: &[u8],
    extent: Extent,
    described: Option<Text>,
    shelf: &mut S,
) -> Result<Text, ShelfError>
    requires image { IsUtf8 image.now }
    ensures files { S.files shelf.new ≡ S.files shelf.old }
    ensures content { IfOk result
        (IsContentOf (S.files shelf.old) image.now (Part extent) described) }
    ensures takes { (told : Files) → S.handed shelf.new
        ≤ S.handed shelf.old + read_size told (Part extent) described }
    ensures whole { IsTrue (S.whole shelf.old) → OnOk result (IsTrue (S.whole shelf.new)) }
    ensures faults { CountsFaults (S.faults shelf.old) (S.faults shelf.new) (IsOk result)
        (IsErrOf result ShelfError.Failed) }
{
    match described {
        Some(text) => Ok(text),
        None => read_content(alloc, image, extent, shelf),
    }
}

/// The bytes of a file that is linked.
fn read_bytes<S: Shelf>(
    alloc: Global,
    image: &[u8],
    content: Content,
    described: Option<Text>,
    shelf: &mut S,
) -> Result<Text, ReadStop>
    requires image { IsUtf8 image.now }
    requires text { PathIsText content }
    requires told { Shows (S.files shelf.old) (λ told. IsToldIn told content described) }
    ensures files { S.files shelf.new ≡ S.files shelf.old }
    ensures content { IfOk result
        (IsContentOf (S.files shelf.old) image.now content described) }
    ensures lacks { LacksSuch (S.files shelf.old) (λ c. c ≡ content) result }
    ensures takes { (told : Files) → IsSizedBy (S.files shelf.old) told content
        → S.handed shelf.new ≤ S.handed shelf.old + read_size told content described }
    ensures whole { IsTrue (S.whole shelf.old) → AfterRead (IsTrue (S.whole shelf.new)) result }
    ensures faults { CountsFaults (S.faults shelf.old) (S.faults shelf.new) (IsOk result)
        (IsErrOf result ReadStop.Outside) }
{
    match content {
        Content::File(path) => read_file(alloc, path, described, shelf),
        Content::Part(extent) => Ok(read_part(alloc, image, extent, described, shelf)?),
    }
}

/// The resources that these files are, in their order; `image` is the path of the image of which
/// some are parts. A file of its own is read once, also where it was described, since one that is
/// gone is none of an image; the bytes that were described are taken. A part that was described
/// isn't read again.
pub fn read_contents<S: Shelf>(
    alloc: Global,
    image: &[u8],
    files: List<LinkFile>,
    shelf: &mut S,
) -> Result<Pool, ReadStop>
    requires image { IsUtf8 image.now }
    requires texts { All (λ f. PathIsText f.content) files }
    requires differ { AllPairs (λ name other. name ≢ other) (file_names files) }
    requires told { Shows (S.files shelf.old) (λ told.
        All (λ f. IsToldIn told f.content f.described) files) }
    ensures files { S.files shelf.new ≡ S.files shelf.old }
    ensures pool { IfOk result (AreReadAs (S.files shelf.old) image.now files) }
    ensures lacks { OnlyLacks (S.files shelf.old) files result }
    ensures takes { (told : Files) → All (λ f. IsSizedBy (S.files shelf.old) told f.content) files
        → S.handed shelf.new ≤ S.handed shelf.old + read_sizes told files }
    ensures whole { IsTrue (S.whole shelf.old) → AfterRead (IsTrue (S.whole shelf.new)) result }
    ensures faults { CountsFaults (S.faults shelf.old) (S.faults shelf.new) (IsOk result)
        (IsErrOf result ReadStop.Outside) }
{
    let mut pool = Pool::new(alloc);
    for file in files.into_vec() {
        let bytes = read_bytes(alloc, image, file.content, file.described, shelf)?;
        pool.push(file.name, bytes)?;
    }
    Ok(pool)
}
