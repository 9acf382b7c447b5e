//! A whole `decompress`.
ghost use Rattle.std.specs.Prelude.{◌≡◌, IsUtf8};
ghost use Rattle.jm_filed.specs.Filed.{IsIndexAt};
ghost use Rattle.jm_outside.specs.Shelves.{shelf_at};
ghost use Rattle.jm_reader.specs.Walk.{IsLater};
ghost use Rattle.jm_decompress.specs.FiledDecompressed.{FiledDecompresses};

use crate::contents::contents_of;
use crate::held::held_image;
use crate::stored_file::{StoredFile, strings_of};
use jm_bytes::Meter;
use jm_halves::{Gate, Workers};
use jm_link::{LinkStop, Summary, write_image};
use jm_outside::Shelf;
use jm_plugins::apply_for;
use jm_words::Plugin;
use std::sync::ledger::Ledger;
use std::thread::Threads;

/// The release of Java SE up to which classes are read: none is.
const RELEASE: u32 = 21;

/// Writes the image of the resources of an image in a file, which was checked as stored, each with
/// the content that its stored bytes stand for, to the file at a path, which may be that of the
/// image: in the byte order of the image, and in the order in which the contents stand there. Nodes
/// are made anew; those of the image aren't looked at. Of its file it reads the stored bytes of the
/// resources, by name, before it writes; one that can't be had whole is a failure of the shelf. The
/// refusals are, in their order: `BadName` of the least resource by name that may not stand in an
/// image; `TooLarge` with how many bytes the contents have by their rows, where these are more than
/// 1 GiB, both before a byte of the contents is read; `Packed` of the least resource by name whose
/// content can't be had; those of the layout. Contents are had on all jobs; the answer depends
/// neither on their number nor on the gate.
pub fn decompress<T: Threads + Sync, S: Shelf, G: Gate + Sync, R: Ledger>(
    workers: &Workers<T, G>,
    image: StoredFile,
    output: &[u8],
    reads: &mut Meter<R>,
    shelf: &mut S,
) -> Result<Summary, LinkStop>
    requires reads { reads.old.bytes ≡ image.index.now.bytes }
    requires path { IsUtf8 image.path.now }
    requires output { IsUtf8 output.now }
    requires there { IsIndexAt image.index.now (S.files shelf.old) image.path.now }
    ensures does { FiledDecompresses image.entry.index.now image.entry.path.now output.now result
        (shelf_at S.Shelf shelf.old) (shelf_at S.Shelf shelf.new)
        (S.handed shelf.old) (S.handed shelf.new) }
    ensures reads { IsLater reads.old reads.new }
{
    let alloc = workers.alloc;
    let order = image.index.header().order;
    let held = held_image(alloc, image, reads, shelf)?;
    let strings = strings_of(image.index, reads);
    let contents = contents_of(workers, order, strings, held.resources.as_slice())?;
    let plugins = [Plugin::KeepOrder(held.order)];
    let left = apply_for(workers, RELEASE, contents, &plugins)?;
    write_image(alloc, order, 0, &left, output, shelf)
}
