//! The command `gen`.
ghost use Rattle.std.specs.Prelude.{◌≡◌, ◌∷◌, ◌++◌, [], None, IfOk, IsTrue, IsUtf8};
ghost use Rattle.std.specs.Prelude.{List, ℕ};
ghost use Rattle.jm_link.specs.FiledLinked.{FiledLinks};
ghost use Rattle.jm_link.specs.Links.{request_of};
ghost use Rattle.jm_link.specs.Steps.{AfterStep, Lacks};
ghost use Rattle.jm_modpath.specs.Listed.{IsBelow};
ghost use Rattle.jm_words.specs.Paths.{GenFits};
ghost use Rattle.jm_outside.specs.Shelves.{shelf_at};
ghost use Rattle.jm_commands.specs.Gen.{gen_link, image_path, made_first};
ghost use Rattle.jm_commands.specs.LinkText.{gen_text};
ghost use Rattle.jm_inspect.specs.Outcome.{done};
ghost use Rattle.jm_commands.specs.Outcome.{making};
ghost use Rattle.jm_commands.specs.Run.{GenComesTo};
ghost use Rattle.jm_commands.specs.Taken.{GenTakes};
ghost use Rattle.jm_inspect.specs.Steps.{PutDoes, StepComesTo};
ghost use Rattle.jm_inspect.specs.Sinks.{Seen};
ghost use Rattle.jm_inspect.specs.World.{sink_at, world};

use crate::link::stop_of_link;
use jm_bytes::{List, NoMemory, Order, Text, copy_of, extend};
use jm_gen::{generate, module_names};
use jm_halves::{Gate, Workers};
use jm_inspect::{Stop, put_text};
use jm_link::{LinkStop, Summary, link};
use jm_outside::{Shelf, Sink};
use jm_words::{GenTask, LinkTask, Plugin};
use std::alloc::Global;
use std::thread::Threads;

/// A path below a folder.
fn below(alloc: Global, dir: &[u8], rest: &[u8]) -> Result<Text, NoMemory>
    requires dir { IsUtf8 dir.now }
    requires rest { IsUtf8 rest.now }
    ensures path { IfOk result (λ path. path ≡ dir.now ++ rest.now) }
    ensures text { IfOk result IsUtf8 }
{
    let mut path = copy_of(alloc, dir)?;
    extend(&mut path, rest)?;
    Ok(Text::from_vec(path))
}

/// Links the modules of a `gen`, which were made in this folder, without what their classes say for
/// debuggers.
fn link_generated<T: Threads + Sync, S: Shelf, G: Gate + Sync>(
    workers: &Workers<T, G>,
    task: &GenTask,
    mods: Text,
    shelf: &mut S,
) -> Result<Summary, LinkStop>
    requires dir { IsUtf8 task.now.dir }
    requires mods { IsUtf8 mods }
    ensures links { FiledLinks None (mods ∷ []) (request_of (gen_link task.now))
        (image_path task.now) result (shelf_at S.Shelf shelf.old) (shelf_at S.Shelf shelf.new)
        (S.handed shelf.old) (S.handed shelf.new) }
    ensures lacks { Lacks (IsBelow (mods ∷ [])) result }
    ensures whole { AfterStep (IsTrue (S.whole shelf.new)) result }
{
    let mut dirs = List::new(workers.alloc);
    dirs.push(mods)?;
    let mut plugins = List::new(workers.alloc);
    plugins.push(Plugin::Strip)?;
    let link_task = LinkTask {
        directories: dirs,
        image: None,
        roots: module_names(workers.alloc, task.modules)?,
        output: below(workers.alloc, task.dir.as_slice(), "/image".as_bytes())?,
        plugins,
        order: Order::Little,
        bind: false,
        release: 21,
    };
    link(
        workers.rt,
        workers.alloc,
        workers.jobs,
        &link_task,
        shelf,
        workers.gate,
    )
}

/// Puts what was generated and linked.
fn put_generated<O: Sink>(alloc: Global, summary: &Summary, out: &mut O) -> Result<(), Stop>
    ensures { PutDoes (done (gen_text summary.now)) result
        (sink_at O.Sink out.old) (sink_at O.Sink out.new) }
{
    let Summary {
        modules,
        resources,
        length,
        slots,
    } = *summary;
    let text = format!(in alloc;
        "modules {modules}\nresources {resources}\nbytes {length}\nslots {slots}\n"
    );
    put_text(alloc, text, out)
}

/// `gen`: makes the files of modules below a folder, links all of them to an image there, and puts
/// what it has. Files that stand among the modules already take part. After a refusal of the link
/// the files that were made stay, each whole under its own name. The source of the run isn't lent
/// to it.
pub fn gen_command<T: Threads + Sync, S: Shelf, O: Sink, G: Gate + Sync>(
    workers: &Workers<T, G>,
    task: &GenTask,
    shelf: &mut S,
    out: &mut O,
) -> Result<(), Stop>
    requires dir { IsUtf8 task.now.dir }
    requires numbers { GenFits task.now }
    ensures comes { (source : Seen (List ℕ)) →
        StepComesTo (GenComesTo (S.files shelf.old) task.now) (making (made_first task.now)) result
        (world (shelf_at S.Shelf shelf.old) source (sink_at O.Sink out.old))
        (world (shelf_at S.Shelf shelf.new) source (sink_at O.Sink out.new)) }
    ensures takes { GenTakes (S.files shelf.old) task.now
        (S.handed shelf.old) (S.handed shelf.new) }
{
    let mods = below(workers.alloc, task.dir.as_slice(), "/mods".as_bytes())?;
    generate(
        workers.alloc,
        shelf,
        mods.as_slice(),
        task.modules,
        task.classes,
        task.seed,
    )?;
    match link_generated(workers, task, mods, shelf) {
        Ok(summary) => put_generated(workers.alloc, &summary, out),
        Err(why) => Err(stop_of_link(why)),
    }
}
