//! The modules of an image.
ghost use Rattle.std.specs.Prelude.{◌≡◌, ℕ, List, All, IfOk, length, map};
ghost use Rattle.jm_relink.specs.Entries.{AreEntriesOf, AreInfosIn, EntriesWithin};
ghost use Rattle.jm_relink.specs.Gathering.{LieWithin};
ghost use Rattle.jm_relink.specs.Modules.{FindsFor, FindsIn};

use crate::contents::infos_in;
use crate::entries::{ModuleEntries, module_entries};
use crate::fault::RelinkFault;
use crate::judging::{SeenModule, seen_modules};
use crate::path::ImagePath;
use jm_bytes::{List, Meter, NoMemory, Or, Text};
use jm_class::DEFAULT_RELEASE;
use jm_closure::Candidate;
use jm_filed::Extent;
use jm_valid::Image;
use std::alloc::Global;
use std::sync::ledger::Ledger;

/// A file of a module of an image.
#[derive(Debug, Drop)]
pub struct ImageFile<'a> {
    /// Its path within the module.
    pub path: ImagePath<'a>,
    /// Where its content stands in the image's file.
    pub content: Extent,
}

/// Modules of an image, their descriptors and the files of each.
#[derive(Debug, Drop)]
pub struct ImageModules<'a> {
    /// What their descriptors say, and their class packages.
    pub candidates: List<Candidate>,
    /// The content of each one's `module-info.class`, in the same order.
    pub infos: List<Text>,
    /// The files of each, in the same order.
    pub files: List<List<ImageFile<'a>>>,
}

/// What the modules say, with the contents of their descriptors, and their files.
fn parted<'a>(
    alloc: Global,
    seen: List<SeenModule<'a>>,
    infos: List<Text>,
) -> Result<ImageModules<'a>, NoMemory>
    ensures candidates { IfOk result (λ found.
        found.candidates ≡ map (λ m. m.candidate) seen.entry) }
    ensures infos { IfOk result (λ found. found.infos ≡ infos) }
    ensures files { IfOk result (λ found. found.files ≡ map (λ m. m.files) seen.entry) }
{
    let mut candidates = List::new(alloc);
    let mut files = List::new(alloc);
    for module in seen.into_vec() {
        candidates.push(module.candidate)?;
        files.push(module.files)?;
    }
    Ok(ImageModules {
        candidates,
        infos,
        files,
    })
}

/// The modules of an image, from what its index says of them, which `module_entries` tells, and the
/// content of each one's `module-info.class`, which is read as a class of this release of Java SE.
/// Of the modules that are refused the one with the least name decides.
pub fn modules_with<'a>(
    alloc: Global,
    release: u32,
    entries: List<ModuleEntries<'a>>,
    infos: List<Text>,
) -> Result<ImageModules<'a>, Or<RelinkFault>>
    requires { length infos ≡ length entries }
    ensures modules { (b : List ℕ) → AreEntriesOf b entries.entry
        → AreInfosIn b entries.entry infos → FindsIn release b result }
    ensures within { (size : ℕ) → All (EntriesWithin size) entries.entry
        → IfOk result (LieWithin size) }
{
    let seen = seen_modules(alloc, release, entries, infos.as_slice())?;
    Ok(parted(alloc, seen, infos)?)
}

/// The modules of an image: those whose `module-info.class` stands in it, rising by name, and the
/// files of each, rising by path. Time n log n in the entries.
///
/// These entries are read as classes of this release of Java SE. An entry of no such module is left
/// out, and so are the nodes. Of the modules that are refused the one with the least name decides.
pub fn modules_for<'a, R: Ledger>(
    alloc: Global,
    release: u32,
    image: &Image<'a>,
    reads: &mut Meter<R>,
) -> Result<ImageModules<'a>, Or<RelinkFault>>
    requires { reads.old.bytes ≡ image.now }
    ensures { FindsFor release image.now reads.old reads.new result }
{
    let entries = module_entries(alloc, &image.index(), reads)?;
    let infos = infos_in(alloc, image, entries.as_slice(), reads)?;
    modules_with(alloc, release, entries, infos)
}

/// The modules of an image by classes of release 21 of Java SE, as `modules_for` finds them.
pub fn modules_of<'a, R: Ledger>(
    alloc: Global,
    image: &Image<'a>,
    reads: &mut Meter<R>,
) -> Result<ImageModules<'a>, Or<RelinkFault>>
    requires { reads.old.bytes ≡ image.now }
    ensures { FindsFor 21 image.now reads.old reads.new result }
{
    modules_for(alloc, DEFAULT_RELEASE, image, reads)
}
