//! A link of the modules of an image, if there is one, and of a module path.
ghost use Rattle.std.specs.Prelude.{◌≡◌, ◌≢◌, ℕ, List, [], None, All, AllPairs, IfOk, IsTrue};
ghost use Rattle.std.specs.Prelude.{IsUtf8};
ghost use Rattle.jm_modpath.specs.Listed.{IsBelow};
ghost use Rattle.jm_modset.specs.Files.{IsTakenFrom, file_names};
ghost use Rattle.jm_modset.specs.Set.{AreSet};
ghost use Rattle.jm_modset.specs.Shown.{AreFit};
ghost use Rattle.jm_outside.specs.Files.{Files};
ghost use Rattle.jm_outside.specs.Shelves.{shelf_at};
ghost use Rattle.jm_pool.specs.Pairs.{names_of};
ghost use Rattle.jm_relink.specs.Gathering.{AreModules};
ghost use Rattle.jm_link.specs.Links.{LinksBy, PoolComesTo, request_of};
ghost use Rattle.jm_link.specs.ModuleSteps.{LinksSet, ReadLinks};
ghost use Rattle.jm_link.specs.Steps.{AfterStep, Lacks};

use crate::closing::closed;
use crate::finding::{FoundModules, found_modules};
use crate::image::write_image;
use crate::linking::{LinkStop, Summary};
use jm_bytes::List;
use jm_halves::{Gate, Workers};
use jm_modset::{LinkFile, link_files, read_contents};
use jm_outside::Shelf;
use jm_plugins::apply_for;
use jm_pool::Pool;
use jm_relink::ImageModules;
use jm_words::LinkTask;
use std::alloc::Global;
use std::thread::Threads;

/// An image whose modules were seen, with the path of its file; without an image it has none.
pub(crate) struct SeenImage<'p, 'a> {
    pub(crate) path: &'p [u8],
    pub(crate) modules: ImageModules<'a>,
}

/// The files of the modules that are linked, and how many modules there are.
#[derive(Drop)]
struct LinkedFiles {
    files: List<LinkFile>,
    modules: usize,
}

/// The files of the modules that are linked, one module after another.
fn linked_files(alloc: Global, found: &FoundModules, binds: bool) -> Result<LinkedFiles, LinkStop>
    requires { AreSet found.now.set }
    ensures links { (files : Files) (b : List ℕ) →
        LinksSet found.now.set found.now.roots binds files b result }
    ensures fit { IfOk result (λ linked. AreFit (file_names linked.files)) }
    ensures taken { IfOk result (λ linked. All (IsTakenFrom found.now.set) linked.files) }
{
    let places = closed(
        alloc,
        found.set.candidates.as_slice(),
        found.roots.as_slice(),
        binds,
    )?;
    let files = link_files(alloc, &found.set, places.as_slice())?;
    Ok(LinkedFiles {
        files,
        modules: places.len(),
    })
}

/// Lets the plug-ins act on the resources of that many modules, and writes their image.
fn write_plugged<T: Threads + Sync, S: Shelf, G: Gate + Sync>(
    workers: &Workers<T, G>,
    task: &LinkTask,
    modules: usize,
    pool: Pool,
    shelf: &mut S,
) -> Result<Summary, LinkStop>
    requires fit { AreFit (names_of pool) }
    requires output { IsUtf8 task.now.output }
    ensures links { LinksBy (PoolComesTo (request_of task.now) modules pool) ⊥ task.now.output
        result (shelf_at S.Shelf shelf.old) (shelf_at S.Shelf shelf.new) }
    ensures whole { IsTrue (S.whole shelf.old) → AfterStep (IsTrue (S.whole shelf.new)) result }
    ensures handed { S.handed shelf.new ≡ S.handed shelf.old }
{
    let left = apply_for(workers, task.release, pool, task.plugins.as_slice())?;
    let output = task.output.as_slice();
    write_image(workers.alloc, task.order, modules, &left, output, shelf)
}

/// Links the modules of an image and of the task's module path.
pub(crate) fn link_modules<T: Threads + Sync, S: Shelf, G: Gate + Sync>(
    workers: &Workers<T, G>,
    task: &LinkTask,
    image: SeenImage,
    shelf: &mut S,
) -> Result<Summary, LinkStop>
    requires path { IsUtf8 image.path.now }
    requires image { AreModules image.modules }
    requires directories { All IsUtf8 task.now.directories }
    requires output { IsUtf8 task.now.output }
    ensures links { ReadLinks image.entry.path.now task.now.directories (request_of task.now)
        image.entry.modules task.now.output result (shelf_at S.Shelf shelf.old)
        (shelf_at S.Shelf shelf.new) (S.handed shelf.old) (S.handed shelf.new) }
    ensures lacks { Lacks (IsBelow task.now.directories) result }
    ensures whole { task.now.directories ≢ [] → AfterStep (IsTrue (S.whole shelf.new)) result }
{
    let alloc = workers.alloc;
    let SeenImage { path, modules } = image;
    let found = found_modules(alloc, task, modules, shelf)?;
    let linked = linked_files(alloc, &found, task.bind)?;
    let read = read_contents(alloc, path, linked.files, shelf)?;
    write_plugged(workers, task, linked.modules, read, shelf)
}
