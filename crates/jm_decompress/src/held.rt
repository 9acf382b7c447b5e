//! The resources of an image with their stored bytes, read as parts of the image's file.
ghost use Rattle.std.specs.Prelude.{◌≡◌, ◌≤◌, ◌+◌, All, IfOk, IsErrOf, IsOk, IsUtf8};
ghost use Rattle.jm_filed.specs.Filed.{IsIndexAt};
ghost use Rattle.jm_form.specs.Rows.{as_stored};
ghost use Rattle.jm_outside.specs.Outcome.{CountsFaults};
ghost use Rattle.jm_reader.specs.Look.{SoundIn};
ghost use Rattle.jm_reader.specs.Walk.{IsLater};
ghost use Rattle.jm_decompress.specs.Decompressed.{stored_size};
ghost use Rattle.jm_decompress.specs.Steps.{AreHeldRead, IsStoredRead, LiesIn, ReadsImage};

use crate::resources::StoredResource;
use crate::stored_file::StoredFile;
use crate::told::judged_resources;
use jm_bytes::{List, Meter, Text};
use jm_filed::{Extent, read_extent};
use jm_form::Row;
use jm_link::LinkStop;
use jm_outside::{Shelf, ShelfError};
use std::alloc::Global;
use std::sync::ledger::Ledger;

/// A resource with its stored bytes.
#[derive(Debug, Drop)]
pub struct HeldResource {
    /// The resource.
    pub resource: StoredResource,
    /// The bytes.
    pub stored: Text,
}

/// The resources of an image with their stored bytes.
#[derive(Drop)]
pub struct HeldImage {
    /// By rising name.
    pub resources: List<HeldResource>,
    /// Their names in the order of their contents.
    pub order: List<Text>,
}

/// The stored bytes of an entry with this row.
fn stored_bytes<S: Shelf>(
    alloc: Global,
    image: StoredFile,
    row: &Row,
    shelf: &mut S,
) -> Result<Text, ShelfError>
    requires path { IsUtf8 image.path.now }
    requires lies { SoundIn image.index.now (as_stored row.now) }
    ensures files { S.files shelf.new ≡ S.files shelf.old }
    ensures read { IfOk result (IsStoredRead image.entry.index.now (S.files shelf.old)
        image.entry.path.now row.now) }
    ensures handed { S.handed shelf.new ≤ S.handed shelf.old + (as_stored row.now).size }
    ensures faults { CountsFaults (S.faults shelf.old) (S.faults shelf.new) (IsOk result)
        (IsErrOf result ShelfError.Failed) }
{
    let extent = Extent::of_stored(image.index, row);
    let mut text = Text::new(alloc);
    read_extent(alloc, image.path, extent, &mut text, shelf)?;
    Ok(text)
}

/// Resources with their stored bytes, which are read in their order. One whose bytes can't be had
/// whole is a fault.
fn held_resources<S: Shelf>(
    alloc: Global,
    image: StoredFile,
    resources: List<StoredResource>,
    shelf: &mut S,
) -> Result<List<HeldResource>, ShelfError>
    requires path { IsUtf8 image.path.now }
    requires lie { All (LiesIn image.index.now) resources }
    ensures files { S.files shelf.new ≡ S.files shelf.old }
    ensures held { IfOk result (AreHeldRead image.entry.index.now (S.files shelf.old)
        image.entry.path.now resources) }
    ensures handed { S.handed shelf.new ≤ S.handed shelf.old + stored_size resources }
    ensures faults { CountsFaults (S.faults shelf.old) (S.faults shelf.new) (IsOk result)
        (IsErrOf result ShelfError.Failed) }
{
    let mut held = List::with_capacity(alloc, resources.len())?;
    for resource in resources.into_vec() {
        let stored = stored_bytes(alloc, image, &resource.row, shelf)?;
        held.push(HeldResource { resource, stored })?;
    }
    Ok(held)
}

/// The resources of an image with their stored bytes, if its index alone shows nothing that is
/// refused. Of its file these bytes are read, and no others.
pub(crate) fn held_image<S: Shelf, R: Ledger>(
    alloc: Global,
    image: StoredFile,
    reads: &mut Meter<R>,
    shelf: &mut S,
) -> Result<HeldImage, LinkStop>
    requires reads { reads.old.bytes ≡ image.index.now.bytes }
    requires path { IsUtf8 image.path.now }
    requires there { IsIndexAt image.index.now (S.files shelf.old) image.path.now }
    ensures files { S.files shelf.new ≡ S.files shelf.old }
    ensures holds { ReadsImage image.entry.index.now (S.files shelf.old) image.entry.path.now
        result (S.handed shelf.old) (S.handed shelf.new) }
    ensures faults { CountsFaults (S.faults shelf.old) (S.faults shelf.new) (IsOk result)
        (IsErrOf result LinkStop.Outside) }
    ensures reads { IsLater reads.old reads.new }
{
    let _header = image.index.header();
    let told = judged_resources(alloc, image.index, reads)?;
    let resources = held_resources(alloc, image, told.resources, shelf)?;
    Ok(HeldImage {
        resources,
        order: told.order,
    })
}
