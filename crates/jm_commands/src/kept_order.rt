//! The order of an image that a link of its modules keeps.
ghost use Rattle.std.specs.Prelude.{◌≡◌, ℕ, List, IfOk, map};
ghost use Rattle.std.specs.List.{list_any};
ghost use Rattle.jm_form.specs.Head.{IsFileOf};
ghost use Rattle.jm_inspect.specs.Ledgers.{IsLedger};
ghost use Rattle.jm_commands.specs.KeptOrder.{keeps_order, ordered_by, with_order};

use jm_bytes::{List, Meter, NoMemory, Text};
use jm_filed::names_in_file_order;
use jm_inspect::OpenFront;
use jm_words::{LinkTask, Plugin};
use std::alloc::Global;
use std::sync::ledger::{Blank, Ledger};

/// Whether a plug-in keeps the order of an image.
fn keeps_order(plugin: &Plugin) -> bool
    ensures { result ≡ keeps_order plugin.now }
{
    match plugin {
        Plugin::KeepOrder(_) => true,
        Plugin::Exclude(_)
        | Plugin::Order(_)
        | Plugin::Strip
        | Plugin::Compact
        | Plugin::Packages
        | Plugin::DropSystemModules => false,
    }
}

/// Whether one of the plug-ins keeps the order of an image.
fn one_keeps(plugins: &[Plugin]) -> bool
    ensures { result ≡ list_any keeps_order plugins.now }
{
    plugins.iter().any(|plugin| keeps_order(plugin))
}

/// The same names once more.
fn copied(alloc: Global, names: &[Text]) -> Result<List<Text>, NoMemory>
    ensures { IfOk result (λ copy. copy ≡ names.now) }
{
    let mut copy = List::with_capacity(alloc, names.len())?;
    for name in names {
        copy.push(Text::copy_of(alloc, name.as_slice())?)?;
    }
    Ok(copy)
}

/// A plug-in with these names, if it keeps the order of an image.
fn with_order(alloc: Global, plugin: Plugin, names: &[Text]) -> Result<Plugin, NoMemory>
    ensures { IfOk result (λ ordered. ordered ≡ with_order names.now plugin) }
{
    if keeps_order(&plugin) {
        Ok(Plugin::KeepOrder(copied(alloc, names)?))
    } else {
        Ok(plugin)
    }
}

/// The plug-ins with these names in those that keep the order of an image.
fn all_with_order(
    alloc: Global,
    plugins: List<Plugin>,
    names: &[Text],
) -> Result<List<Plugin>, NoMemory>
    ensures { IfOk result (λ ordered. ordered ≡ map (with_order names.now) plugins) }
{
    let mut ordered = List::with_capacity(alloc, plugins.len())?;
    for plugin in plugins.into_vec() {
        ordered.push(with_order(alloc, plugin, names)?)?;
    }
    Ok(ordered)
}

/// What is asked of a link of the modules of an image, where each plug-in that keeps the order of
/// the contents has the names of the image's resources in it. Where none does, no name is read.
pub fn ordered_by<R: Ledger>(
    alloc: Global,
    task: LinkTask,
    image: &OpenFront,
    reads: Blank,
) -> Result<LinkTask, NoMemory>
    requires { IsLedger reads.name reads.parts R.name R.parts }
    ensures { (b : List ℕ) → IsFileOf image.now.front.bytes image.now.front.length b
        → IfOk result (λ ordered. ordered ≡ ordered_by b task) }
{
    if !one_keeps(task.plugins.as_slice()) {
        return Ok(task);
    }
    let mut reads = Meter::<R>::new(image.bytes(), reads);
    let names = names_in_file_order(alloc, image.as_index(), &mut reads)?;
    Ok(LinkTask {
        directories: task.directories,
        image: task.image,
        roots: task.roots,
        output: task.output,
        plugins: all_with_order(alloc, task.plugins, names.as_slice())?,
        order: task.order,
        bind: task.bind,
        release: task.release,
    })
}
