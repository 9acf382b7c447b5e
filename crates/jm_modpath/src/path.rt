//! The modules that a module path shows.
ghost use Rattle.std.specs.Prelude.{◌≡◌, ◌≢◌, ◌≤◌, ◌+◌, ◌⊎◌, ◌∷◌, ◌++◌, [], All, Contains, IsTrue};
ghost use Rattle.std.specs.Prelude.{IsUtf8, IfOk, IsOk, IsErrOf};
ghost use Rattle.jm_outside.specs.Outcome.{CountsFaults, Shows};
ghost use Rattle.jm_modpath.specs.Finding.{AfterStep, AreVisible, Comes, HasTexts, Lacks};
ghost use Rattle.jm_modpath.specs.Finding.{ShowsModules, shown_more, with_unhidden};
ghost use Rattle.jm_modpath.specs.Listed.{IsBelow, IsInside, all_infos_size, infos_size};
ghost use Rattle.jm_modpath.specs.Modules.{unhidden};

use crate::directory::found_in;
use crate::found::FoundModules;
use crate::modules::VisibleModules;
use crate::refusal::PathStop;
use crate::visible::VisibleModule;
use jm_bytes::{List, NoMemory, Text};
use jm_outside::Shelf;
use std::alloc::Global;

/// The modules found, with one more, if none of them has its name.
fn add_unhidden(
    alloc: Global,
    found: FoundModules,
    module: VisibleModule,
) -> Result<FoundModules, NoMemory>
    requires { HasTexts «module» }
    ensures { IfOk result (λ all. all ≡ found ++ unhidden found («module» ∷ [])) }
{
    if found.has(module.candidate.descriptor.name.as_slice()) {
        Ok(found)
    } else {
        found.with(alloc, module)
    }
}

/// The modules found, with those of a directory that they don't hide.
fn with_unhidden(
    alloc: Global,
    found: FoundModules,
    modules: List<VisibleModule>,
) -> Result<FoundModules, NoMemory>
    requires { All HasTexts modules }
    ensures { IfOk result (λ all. all ≡ with_unhidden found modules) }
{
    let mut all = found;
    for module in modules.into_vec() {
        all = add_unhidden(alloc, all, module)?;
    }
    Ok(all)
}

/// The modules of earlier directories, with those of one more that they don't hide, by classes of
/// this release of Java SE.
fn with_directory<S: Shelf>(
    alloc: Global,
    release: u32,
    found: FoundModules,
    directory: &[u8],
    shelf: &mut S,
) -> Result<FoundModules, PathStop>
    requires { IsUtf8 directory.now }
    ensures files { S.files shelf.new ≡ S.files shelf.old }
    ensures told { Shows (S.files shelf.old) (λ files.
        Comes ⊥ (shown_more release files found directory.now) result) }
    ensures from { IfOk result (λ all. (m : _) → Contains all m
        → Contains found m ⊎ IsInside directory.now m.folder) }
    ensures lacks { Lacks (IsInside directory.now) result }
    ensures takes { Shows (S.files shelf.old) (λ files. S.handed shelf.new
        ≤ S.handed shelf.old + infos_size files directory.now) }
    ensures whole { AfterStep (IsTrue (S.whole shelf.new)) result }
    ensures faults { CountsFaults (S.faults shelf.old) (S.faults shelf.new) (IsOk result)
        (IsErrOf result PathStop.Outside) }
{
    let modules = found_in(alloc, release, directory, shelf)?.into_list();
    Ok(with_unhidden(alloc, found, modules)?)
}

/// The modules that the directories of a module path show: the folders of each that directly hold
/// a `module-info.class`, rising. These files are read as classes of this release of Java SE. A
/// module of an earlier directory hides one of its name in a later directory. Each of these files
/// is read once. Time n log n in the files.
pub fn visible_modules<S: Shelf>(
    alloc: Global,
    release: u32,
    directories: &[Text],
    shelf: &mut S,
) -> Result<VisibleModules, PathStop>
    requires { All IsUtf8 directories.now }
    ensures files { S.files shelf.new ≡ S.files shelf.old }
    ensures modules { Shows (S.files shelf.old) (λ files.
        ShowsModules release files directories.now result) }
    ensures are { IfOk result AreVisible }
    ensures below { IfOk result (All (λ m. IsBelow directories.now m.folder)) }
    ensures lacks { Lacks (IsBelow directories.now) result }
    ensures takes { Shows (S.files shelf.old) (λ files. S.handed shelf.new
        ≤ S.handed shelf.old + all_infos_size files directories.now) }
    ensures whole { directories.now ≢ [] → AfterStep (IsTrue (S.whole shelf.new)) result }
    ensures faults { CountsFaults (S.faults shelf.old) (S.faults shelf.new) (IsOk result)
        (IsErrOf result PathStop.Outside) }
{
    let mut found = FoundModules::new(alloc);
    for directory in directories {
        found = with_directory(alloc, release, found, directory.as_slice(), shelf)?;
    }
    Ok(VisibleModules::of(alloc, found.into_list())?)
}
