//! The command `decompress`.
ghost use Rattle.std.specs.Prelude.{◌≡◌, ℕ, IsUtf8, List};
ghost use Rattle.jm_decompress.specs.FiledDecompressed.{FiledDecompresses};
ghost use Rattle.jm_filed.specs.Filed.{IsIndexAt};
ghost use Rattle.jm_outside.specs.Shelves.{shelf_at};
ghost use Rattle.jm_words.specs.Paths.{DecompressIsText};
ghost use Rattle.jm_inspect.specs.Ledgers.{IsLedger};
ghost use Rattle.jm_inspect.specs.Outcome.{done, reading};
ghost use Rattle.jm_inspect.specs.Sinks.{Seen};
ghost use Rattle.jm_inspect.specs.Steps.{PutDoes, StepComesTo};
ghost use Rattle.jm_inspect.specs.Taken.{TakesFrom};
ghost use Rattle.jm_inspect.specs.Works.{StoredComes};
ghost use Rattle.jm_inspect.specs.World.{sink_at, world};
ghost use Rattle.jm_commands.specs.LinkText.{decompress_text};
ghost use Rattle.jm_commands.specs.Run.{DecompressComesTo};
ghost use Rattle.jm_commands.specs.Taken.{decompress_size};

use crate::link::stop_of_link;
use jm_bytes::{Meter, Text};
use jm_decompress::{StoredFile, decompress};
use jm_halves::{Gate, Workers};
use jm_inspect::{FileFront, OpenStored, Stop, put_text};
use jm_link::{LinkStop, Summary};
use jm_outside::{Shelf, Sink};
use jm_words::DecompressTask;
use std::alloc::Global;
use std::marker::Brand;
use std::sync::ledger::{Blank, Ledger};
use std::thread::Threads;

/// Puts what was decompressed.
fn put_decompressed<O: Sink>(alloc: Global, summary: &Summary, out: &mut O) -> Result<(), Stop>
    ensures { PutDoes (done (decompress_text summary.now)) result
        (sink_at O.Sink out.old) (sink_at O.Sink out.new) }
{
    let Summary {
        resources,
        length,
        ..
    } = *summary;
    let text = format!(in alloc; "resources {resources}\nbytes {length}\n");
    put_text(alloc, text, out)
}

/// Does what `decompress` of jm_decompress does, with a meter of its own.
fn decompress_counted<T: Threads + Sync, S: Shelf, G: Gate + Sync, R: Ledger>(
    workers: &Workers<T, G>,
    image: &OpenStored,
    output: &Text,
    shelf: &mut S,
    reads: Blank,
) -> Result<Summary, LinkStop>
    requires output { IsUtf8 output.now }
    requires there { IsIndexAt image.now.front (S.files shelf.old) image.now.path }
    requires reads { IsLedger reads.name reads.parts R.name R.parts }
    ensures { FiledDecompresses image.now.front image.now.path output.now result
        (shelf_at S.Shelf shelf.old) (shelf_at S.Shelf shelf.new)
        (S.handed shelf.old) (S.handed shelf.new) }
{
    let mut reads = Meter::<R>::new(image.bytes(), reads);
    let stored = StoredFile {
        index: image.as_index(),
        path: image.path().as_slice(),
    };
    decompress(workers, stored, output.as_slice(), &mut reads, shelf)
}

/// `decompress`: writes the image of the resources of an image whose contents may be compressed,
/// with none compressed, to a file, and puts what it has. Of the file of the image the index is
/// read, and then the stored contents of the resources, all before the output is begun; so both
/// paths may be the same. The source of the run isn't lent to it.
pub fn decompress_command<T: Threads + Sync, S: Shelf, O: Sink, G: Gate + Sync>(
    workers: &Workers<T, G>,
    task: &DecompressTask,
    shelf: &mut S,
    out: &mut O,
) -> Result<(), Stop>
    requires { DecompressIsText task.now }
    ensures comes { (source : Seen (List ℕ)) →
        StepComesTo (StoredComes (S.files shelf.old) task.now.image (DecompressComesTo task.now))
        reading result
        (world (shelf_at S.Shelf shelf.old) source (sink_at O.Sink out.old))
        (world (shelf_at S.Shelf shelf.new) source (sink_at O.Sink out.new)) }
    ensures takes { TakesFrom (S.files shelf.old) task.now.image decompress_size
        (S.handed shelf.old) (S.handed shelf.new) }
{
    let mut bytes = FileFront::new(workers.alloc);
    let image = OpenStored::at(workers, &task.image, &mut bytes, shelf)?;
    let reads = Blank::new(1);
    match decompress_counted::<T, S, G, Brand>(workers, &image, &task.output, shelf, reads) {
        Ok(summary) => put_decompressed(workers.alloc, &summary, out),
        Err(why) => Err(stop_of_link(why)),
    }
}
