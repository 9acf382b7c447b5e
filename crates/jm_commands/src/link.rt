//! The command `link`.
ghost use Rattle.std.specs.Prelude.{◌≡◌, ℕ, All, IsUtf8, List, Some};
ghost use Rattle.jm_filed.specs.Filed.{IsIndexAt};
ghost use Rattle.jm_link.specs.FiledLinked.{FiledLinks};
ghost use Rattle.jm_link.specs.Links.{request_of};
ghost use Rattle.jm_link.specs.Steps.{Lacks};
ghost use Rattle.jm_modpath.specs.Listed.{IsBelow};
ghost use Rattle.jm_words.specs.Paths.{LinkIsText};
ghost use Rattle.jm_outside.specs.Shelves.{shelf_at};
ghost use Rattle.jm_inspect.specs.Ledgers.{IsLedger};
ghost use Rattle.jm_commands.specs.LinkText.{link_text};
ghost use Rattle.jm_commands.specs.Stops.{stop_of_link};
ghost use Rattle.jm_inspect.specs.Outcome.{done, reading};
ghost use Rattle.jm_commands.specs.Run.{LinkComesBy, LinkComesTo};
ghost use Rattle.jm_inspect.specs.Steps.{PutDoes, StepComesTo};
ghost use Rattle.jm_inspect.specs.Sinks.{Seen};
ghost use Rattle.jm_commands.specs.Taken.{LinkTakes, LinkTakesBy};
ghost use Rattle.jm_inspect.specs.World.{sink_at, world};

use crate::kept_order::ordered_by;
use jm_bytes::{Meter, Text};
use jm_halves::{Gate, Workers};
use jm_inspect::{Complaint, FileFront, OpenFront, Stop, put_text};
use jm_link::{LinkStop, Summary, link, link_image};
use jm_outside::{Shelf, Sink};
use jm_words::LinkTask;
use std::alloc::Global;
use std::marker::Brand;
use std::sync::ledger::{Blank, Ledger};
use std::thread::Threads;

/// Why a command stops where a link did.
pub fn stop_of_link(why: LinkStop) -> Stop
    ensures { result ≡ stop_of_link why }
{
    match why {
        LinkStop::Refused(refusal) => Stop::Complaint(Complaint::Refused(refusal)),
        LinkStop::NotThere(path) => Stop::Complaint(Complaint::NotThere(path)),
        LinkStop::Outside => Stop::Outside,
        LinkStop::Memory => Stop::Memory,
    }
}

/// Puts what was linked.
fn put_summary<O: Sink>(alloc: Global, summary: &Summary, out: &mut O) -> Result<(), Stop>
    ensures { PutDoes (done (link_text summary.now)) result
        (sink_at O.Sink out.old) (sink_at O.Sink out.new) }
{
    let Summary {
        modules,
        resources,
        length,
        ..
    } = *summary;
    let text = format!(in alloc; "modules {modules}\nresources {resources}\nbytes {length}\n");
    put_text(alloc, text, out)
}

/// Does what `link_image` does, with a meter of its own.
fn link_counted<T: Threads + Sync, S: Shelf, G: Gate + Sync, R: Ledger>(
    workers: &Workers<T, G>,
    task: &LinkTask,
    image: &OpenFront,
    shelf: &mut S,
    reads: Blank,
) -> Result<Summary, LinkStop>
    requires directories { All IsUtf8 task.now.directories }
    requires output { IsUtf8 task.now.output }
    requires there { IsIndexAt image.now.front (S.files shelf.old) image.now.path }
    requires reads { IsLedger reads.name reads.parts R.name R.parts }
    ensures links { FiledLinks
        (Some (record { index = image.now.front; path = image.now.path }))
        task.now.directories (request_of task.now) task.now.output result
        (shelf_at S.Shelf shelf.old) (shelf_at S.Shelf shelf.new)
        (S.handed shelf.old) (S.handed shelf.new) }
    ensures lacks { Lacks (IsBelow task.now.directories) result }
{
    let mut reads = Meter::<R>::new(image.bytes(), reads);
    link_image(workers, task, image.as_filed(), &mut reads, shelf)
}

/// Links the modules of the image in the file at a path and those of the task's module path, and
/// puts what the new image has. What counts are the file's bytes as they were read, also where the
/// output has the same path.
#[tactic(auto, using(crate::proofs::LinkLaws::takes_link_front))]
fn link_with_image<T: Threads + Sync, S: Shelf, O: Sink, G: Gate + Sync>(
    workers: &Workers<T, G>,
    task: LinkTask,
    path: &Text,
    shelf: &mut S,
    out: &mut O,
) -> Result<(), Stop>
    requires directories { All IsUtf8 task.directories }
    requires path { IsUtf8 path.now }
    requires output { IsUtf8 task.output }
    ensures comes { (source : Seen (List ℕ)) →
        StepComesTo (LinkComesBy link_text (S.files shelf.old) task (Some path.now)) reading result
        (world (shelf_at S.Shelf shelf.old) source (sink_at O.Sink out.old))
        (world (shelf_at S.Shelf shelf.new) source (sink_at O.Sink out.new)) }
    ensures takes { LinkTakesBy (S.files shelf.old) task (Some path.now)
        (S.handed shelf.old) (S.handed shelf.new) }
{
    let mut bytes = FileFront::new(workers.alloc);
    let image = OpenFront::at(workers, path, &mut bytes, shelf)?;
    let ordered = ordered_by::<Brand>(workers.alloc, task, &image, Blank::new(1))?;
    let reads = Blank::new(1);
    match link_counted::<T, S, G, Brand>(workers, &ordered, &image, shelf, reads) {
        Ok(summary) => put_summary(workers.alloc, &summary, out),
        Err(why) => Err(stop_of_link(why)),
    }
}

/// `link`: writes the image of the closure of the roots to a file, after the plug-ins acted on its
/// resources, and puts what it has. The source of the run isn't lent to it.
pub fn link_command<T: Threads + Sync, S: Shelf, O: Sink, G: Gate + Sync>(
    workers: &Workers<T, G>,
    task: LinkTask,
    shelf: &mut S,
    out: &mut O,
) -> Result<(), Stop>
    requires { LinkIsText task }
    ensures comes { (source : Seen (List ℕ)) →
        StepComesTo (LinkComesTo link_text (S.files shelf.old) task) reading result
        (world (shelf_at S.Shelf shelf.old) source (sink_at O.Sink out.old))
        (world (shelf_at S.Shelf shelf.new) source (sink_at O.Sink out.new)) }
    ensures takes { LinkTakes (S.files shelf.old) task
        (S.handed shelf.old) (S.handed shelf.new) }
{
    match &task.image {
        Some(path) => {
            let path = Text::copy_of(workers.alloc, path.as_slice())?;
            link_with_image(workers, task, &path, shelf, out)
        }
        None => match link(
            workers.rt,
            workers.alloc,
            workers.jobs,
            &task,
            shelf,
            workers.gate,
        ) {
            Ok(summary) => put_summary(workers.alloc, &summary, out),
            Err(why) => Err(stop_of_link(why)),
        },
    }
}
