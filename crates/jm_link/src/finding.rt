//! The modules that a link finds, and its roots among them.
ghost use Rattle.std.specs.Prelude.{◌≡◌, ◌≢◌, ◌≤◌, ◌+◌, ℕ, List, Option, [], All, IfOk, IsErrOf};
ghost use Rattle.std.specs.Prelude.{IsOk, IsTrue, IsUtf8};
ghost use Rattle.jm_modpath.specs.Finding.{AreVisible};
ghost use Rattle.jm_modpath.specs.Listed.{IsBelow, all_infos_size};
ghost use Rattle.jm_modset.specs.Set.{AreSet};
ghost use Rattle.jm_outside.specs.Outcome.{CountsFaults, Shows};
ghost use Rattle.jm_relink.specs.Gathering.{AreModules};
ghost use Rattle.jm_link.specs.Links.{path_files, request_of};
ghost use Rattle.jm_link.specs.ModuleSteps.{ComeFrom, FindsSet, HasImage, PathGives, named_of};
ghost use Rattle.jm_link.specs.ModuleSteps.{sources};
ghost use Rattle.jm_link.specs.Steps.{AfterStep, Lacks};

use crate::linking::LinkStop;
use jm_bytes::{List, Text};
use jm_closure::Candidate;
use jm_modpath::{VisibleModules, visible_modules};
use jm_modset::{ModuleSet, joined, roots_among};
use jm_outside::Shelf;
use jm_relink::ImageModules;
use jm_words::LinkTask;
use std::alloc::Global;

/// The modules that are found, and the roots of a link.
#[derive(Drop)]
pub(crate) struct FoundModules<'a> {
    pub(crate) set: ModuleSet<'a>,
    pub(crate) roots: List<Text>,
}

/// The modules that a module path shows; without directories the shelf isn't looked at.
fn path_modules<S: Shelf>(
    alloc: Global,
    release: u32,
    directories: &[Text],
    shelf: &mut S,
) -> Result<VisibleModules, LinkStop>
    requires { All IsUtf8 directories.now }
    ensures files { S.files shelf.new ≡ S.files shelf.old }
    ensures modules { Shows (path_files directories.now (S.files shelf.old)) (λ files.
        PathGives release files directories.now result) }
    ensures are { IfOk result AreVisible }
    ensures below { IfOk result (All (λ m. IsBelow directories.now m.folder)) }
    ensures lacks { Lacks (IsBelow directories.now) result }
    ensures takes { Shows (path_files directories.now (S.files shelf.old)) (λ files.
        S.handed shelf.new ≤ S.handed shelf.old + all_infos_size files directories.now) }
    ensures whole { directories.now ≢ [] → AfterStep (IsTrue (S.whole shelf.new)) result }
    ensures faults { CountsFaults (S.faults shelf.old) (S.faults shelf.new) (IsOk result)
        (IsErrOf result LinkStop.Outside) }
{
    if directories.is_empty() {
        return Ok(VisibleModules::of(alloc, List::new(alloc))?);
    }
    Ok(visible_modules(alloc, release, directories, shelf)?)
}

/// The modules that the word for all modules stands for: those of the module path, where there is
/// one, else those of the image.
fn named_of<'a>(
    directories: &[Text],
    image: &'a [Candidate],
    path: &'a [Candidate],
) -> &'a [Candidate]
    ensures { result.now ≡ named_of directories.now image.now path.now }
{
    if directories.is_empty() { image } else { path }
}

/// The modules of an image and of the task's module path, and the roots among them.
pub(crate) fn found_modules<'a, S: Shelf>(
    alloc: Global,
    task: &LinkTask,
    image: ImageModules<'a>,
    shelf: &mut S,
) -> Result<FoundModules<'a>, LinkStop>
    requires image { AreModules image }
    requires directories { All IsUtf8 task.now.directories }
    ensures files { S.files shelf.new ≡ S.files shelf.old }
    ensures finds { (bytes : Option (List ℕ)) → HasImage task.now.release bytes image.entry
        → Shows (path_files task.now.directories (S.files shelf.old)) (λ files. FindsSet
        (sources bytes task.now.directories files) (request_of task.now) result) }
    ensures are { IfOk result (λ all. AreSet all.set) }
    ensures from { IfOk result (λ all. ComeFrom (S.files shelf.old) task.now.release
        task.now.directories image.entry all.set) }
    ensures lacks { Lacks (IsBelow task.now.directories) result }
    ensures takes { Shows (path_files task.now.directories (S.files shelf.old)) (λ files.
        S.handed shelf.new ≤ S.handed shelf.old + all_infos_size files task.now.directories) }
    ensures whole { task.now.directories ≢ [] → AfterStep (IsTrue (S.whole shelf.new)) result }
    ensures faults { CountsFaults (S.faults shelf.old) (S.faults shelf.new) (IsOk result)
        (IsErrOf result LinkStop.Outside) }
{
    let directories = task.directories.as_slice();
    let path = path_modules(alloc, task.release, directories, shelf)?;
    let named = named_of(directories, image.candidates.as_slice(), path.candidates());
    let roots = roots_among(alloc, named, task.roots.as_slice())?;
    let set = joined(alloc, image, path)?;
    Ok(FoundModules { set, roots })
}
