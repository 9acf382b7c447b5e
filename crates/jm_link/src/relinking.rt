//! A whole `link` with the modules of an image.
ghost use Rattle.std.specs.Prelude.{◌≡◌, Some, All, IsErrOf, IsOk, IsUtf8};
ghost use Rattle.jm_filed.specs.Filed.{IsIndexAt};
ghost use Rattle.jm_link.specs.FiledLinked.{FiledLinks};
ghost use Rattle.jm_link.specs.ImageSteps.{ReadsModules};
ghost use Rattle.jm_link.specs.Links.{request_of};
ghost use Rattle.jm_link.specs.Steps.{Lacks};
ghost use Rattle.jm_modpath.specs.Listed.{IsBelow};
ghost use Rattle.jm_outside.specs.Outcome.{CountsFaults};
ghost use Rattle.jm_outside.specs.Shelves.{shelf_at};
ghost use Rattle.jm_reader.specs.Walk.{IsLater};

use crate::linking::{LinkStop, Summary};
use crate::modules::{SeenImage, link_modules};
use jm_bytes::Meter;
use jm_filed::FiledImage;
use jm_halves::{Gate, Workers};
use jm_modset::read_infos;
use jm_outside::Shelf;
use jm_relink::{ImageModules, module_entries, modules_with};
use jm_words::LinkTask;
use std::alloc::Global;
use std::sync::ledger::Ledger;
use std::thread::Threads;

/// The modules of an image. Of its file only their descriptors are read.
fn shown_modules<'a, S: Shelf, R: Ledger>(
    alloc: Global,
    release: u32,
    image: FiledImage<'_, 'a>,
    reads: &mut Meter<R>,
    shelf: &mut S,
) -> Result<ImageModules<'a>, LinkStop>
    requires reads { reads.old.bytes ≡ image.index.now.bytes }
    requires path { IsUtf8 image.path.now }
    ensures files { S.files shelf.new ≡ S.files shelf.old }
    ensures shows { ReadsModules image.entry.index.now (S.files shelf.old) image.entry.path.now
        release result (S.handed shelf.old) (S.handed shelf.new) }
    ensures faults { CountsFaults (S.faults shelf.old) (S.faults shelf.new) (IsOk result)
        (IsErrOf result LinkStop.Outside) }
    ensures reads { IsLater reads.old reads.new }
{
    let entries = module_entries(alloc, image.index, reads)?;
    let infos = read_infos(alloc, image.path, entries.as_slice(), shelf)?;
    Ok(modules_with(alloc, release, entries, infos)?)
}

/// Links the modules of an image in a file, and those of the task's module path whose name none of
/// these has, that are reached from the roots, or bound by them, lets the plug-ins act on their
/// resources, each on all jobs, and writes the image to the file at a path, which may be that of
/// the image that is read. Of the image's file it reads the descriptors, and then the other
/// contents of the modules that are linked, before it writes; one that can't be had whole is a
/// failure of the shelf. The task's own path of an image isn't looked at. The answer depends
/// neither on the number of jobs nor on the gate. An image that a link made comes back as it is,
/// where all of its modules are linked without a module path, without a plug-in and with that
/// link's release or a later one.
pub fn link_image<T: Threads + Sync, S: Shelf, G: Gate + Sync, R: Ledger>(
    workers: &Workers<T, G>,
    task: &LinkTask,
    image: FiledImage,
    reads: &mut Meter<R>,
    shelf: &mut S,
) -> Result<Summary, LinkStop>
    requires reads { reads.old.bytes ≡ image.index.now.bytes }
    requires path { IsUtf8 image.path.now }
    requires directories { All IsUtf8 task.now.directories }
    requires output { IsUtf8 task.now.output }
    requires there { IsIndexAt image.index.now (S.files shelf.old) image.path.now }
    ensures links { FiledLinks
        (Some (record { index = image.entry.index.now; path = image.entry.path.now }))
        task.now.directories (request_of task.now) task.now.output result
        (shelf_at S.Shelf shelf.old) (shelf_at S.Shelf shelf.new) (S.handed shelf.old)
        (S.handed shelf.new) }
    ensures lacks { Lacks (IsBelow task.now.directories) result }
    ensures reads { IsLater reads.old reads.new }
{
    let path = image.path;
    let modules = shown_modules(workers.alloc, task.release, image, reads, shelf)?;
    link_modules(workers, task, SeenImage { path, modules }, shelf)
}
