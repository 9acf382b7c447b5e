//! A whole `link`.
ghost use Rattle.std.specs.Prelude.{◌≡◌, ◌≢◌, ◌<◌, [], None, All, IsTrue, IsUtf8};
ghost use Rattle.jm_link.specs.FiledLinked.{FiledLinks};
ghost use Rattle.jm_link.specs.Links.{request_of};
ghost use Rattle.jm_link.specs.Steps.{AfterStep, Lacks};
ghost use Rattle.jm_modpath.specs.Listed.{IsBelow};
ghost use Rattle.jm_outside.specs.Shelves.{shelf_at};

use crate::modules::{SeenImage, link_modules};
use jm_bytes::{List, Text};
use jm_halves::{Gate, Workers};
use jm_outside::Shelf;
use jm_relink::ImageModules;
use jm_texts::Refusal;
use jm_words::LinkTask;
use std::alloc::Global;
use std::thread::Threads;

/// What was linked.
#[derive(Clone, Copy, Debug, PartialEq, Eq)]
pub struct Summary {
    /// How many modules the closure has.
    pub modules: usize,
    /// How many resources the image has, nodes not counted.
    pub resources: usize,
    /// The length of the image in bytes.
    pub length: u64,
    /// How many slots its table has.
    pub slots: u32,
}

/// Why nothing was linked.
#[derive(Debug, Drop)]
pub enum LinkStop {
    /// The input is refused; no file was changed.
    Refused(Refusal),
    /// The file at this path was listed and isn't there.
    NotThere(Text),
    /// A call of the shelf failed.
    Outside,
    /// No memory was found.
    Memory,
}

/// The modules of no image.
fn no_modules<'a>(alloc: Global) -> ImageModules<'a>
    ensures { result ≡ record { candidates = []; infos = []; files = [] } }
{
    ImageModules {
        candidates: List::new(alloc),
        infos: List::new(alloc),
        files: List::new(alloc),
    }
}

/// Links the modules of a module path that are reached from the roots, or bound by them, lets the
/// plug-ins act on their resources, each on all jobs, and writes the image to the file at a path. A
/// module of an earlier directory hides its name in later ones. The task's image isn't looked at.
/// The answer depends neither on the number of jobs nor on the gate.
pub fn link<R: Threads + Sync, S: Shelf, G: Gate + Sync>(
    rt: &R,
    alloc: Global,
    jobs: u32,
    task: &LinkTask,
    shelf: &mut S,
    gate: &G,
) -> Result<Summary, LinkStop>
    requires jobs { 0 < jobs }
    requires directories { All IsUtf8 task.now.directories }
    requires output { IsUtf8 task.now.output }
    ensures links { FiledLinks None task.now.directories (request_of task.now) task.now.output
        result (shelf_at S.Shelf shelf.old) (shelf_at S.Shelf shelf.new) (S.handed shelf.old)
        (S.handed shelf.new) }
    ensures lacks { Lacks (IsBelow task.now.directories) result }

    // Files that were made before stand whole then, also after a refusal.
    ensures whole { task.now.directories ≢ [] → AfterStep (IsTrue (S.whole shelf.new)) result }
{
    let workers = Workers {
        rt,
        alloc,
        jobs,
        gate,
    };
    let path: &[u8] = b"";
    let modules = no_modules(alloc);
    link_modules(&workers, task, SeenImage { path, modules }, shelf)
}
