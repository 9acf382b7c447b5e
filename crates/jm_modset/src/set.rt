//! The modules of an image and of a module path as one list.
ghost use Rattle.std.specs.Prelude.{◌≡◌, ◌∷◌, ◌++◌, [], ℕ, List, All, IfOk, OnOk, map};
ghost use Rattle.std.specs.List.{zip};
ghost use Rattle.jm_closure.specs.declared.candidate.Candidate.{Candidate};
ghost use Rattle.jm_closure.specs.Names.{Indexes};
ghost use Rattle.jm_modpath.specs.Finding.{AreVisible};
ghost use Rattle.jm_outside.specs.Files.{Files};
ghost use Rattle.jm_relink.specs.Gathering.{AreModules};
ghost use Rattle.jm_modset.specs.Found.{unhidden_by};
ghost use Rattle.jm_modset.specs.Set.{AreSet, IsFrom, image_in, image_set, items, set_in};
ghost use Rattle.jm_modset.specs.Set.{with_unhidden};
ghost use Rattle.jm_modset.specs.Shown.{of_folder};

use jm_bytes::{List, NoMemory, Text};
use jm_closure::{Candidate, Places, names_of};
use jm_modpath::{ModuleFolder, VisibleModules};
use jm_relink::{ImageFile, ImageModules};
use std::alloc::Global;

/// The files of a module of an image.
#[derive(Debug, Drop)]
pub struct EntryFiles<'a> {
    /// The bytes of its `module-info.class`, which were described.
    pub info: Text,
    /// Its files, rising by path.
    pub files: List<ImageFile<'a>>,
}

/// The files of a module, by where they stand.
#[derive(Debug, Drop)]
pub enum ModuleFiles<'a> {
    /// Below a folder of a shelf.
    Folder(ModuleFolder),
    /// In the file of an image.
    Image(EntryFiles<'a>),
}

/// The modules that a link finds, no two of one name.
#[derive(Debug, Drop)]
pub struct ModuleSet<'a> {
    /// What their descriptors say, and their class packages.
    pub candidates: List<Candidate>,
    /// The files of each, in the same order.
    pub files: List<ModuleFiles<'a>>,
}

/// The items of two lists side by side, as far as both go.
fn zipped<A: Drop, B: Drop>(
    alloc: Global,
    first: List<A>,
    second: List<B>,
) -> Result<List<(A, B)>, NoMemory>
    ensures { IfOk result (λ pairs. pairs ≡ zip first second) }
{
    let mut pairs = List::new(alloc);
    let mut rest = first.into_vec().into_iter();
    let mut others = second.into_vec().into_iter();
    while let Some(one) = rest.next() {
        let Some(other) = others.next() else {
            return Ok(pairs);
        };
        pairs.push((one, other))?;
    }
    Ok(pairs)
}

/// The modules of an image.
fn image_set<'a>(alloc: Global, image: ImageModules<'a>) -> Result<ModuleSet<'a>, NoMemory>
    ensures { IfOk result (λ set. set ≡ image_set image.entry) }
{
    let ImageModules {
        candidates,
        infos,
        files,
    } = image;
    let mut all = List::new(alloc);
    for (info, files) in zipped(alloc, infos, files)?.into_vec() {
        all.push(ModuleFiles::Image(EntryFiles { info, files }))?;
    }
    Ok(ModuleSet {
        candidates,
        files: all,
    })
}

/// The modules with one more of a module path, if its name is none of these.
fn put_unhidden(
    set: &mut ModuleSet,
    names: &Places,
    candidate: Candidate,
    folder: ModuleFolder,
) -> Result<(), NoMemory>
    ensures { (image : List Candidate) → Indexes image names.now
        → OnOk result (set.new ≡ with_unhidden image set.old ((candidate, folder) ∷ [])) }
{
    if names.get(candidate.descriptor.name.as_slice()).is_none() {
        set.candidates.push(candidate)?;
        set.files.push(ModuleFiles::Folder(folder))?;
    }
    Ok(())
}

/// Modules, and after them those of a module path whose name is none of these.
fn with_unhidden<'a>(
    set: ModuleSet<'a>,
    names: &Places,
    path: List<(Candidate, ModuleFolder)>,
) -> Result<ModuleSet<'a>, NoMemory>
    ensures { (image : List Candidate) → Indexes image names.now
        → IfOk result (λ all. all ≡ with_unhidden image set.entry path) }
{
    let mut all = set;
    for (candidate, folder) in path.into_vec() {
        put_unhidden(&mut all, names, candidate, folder)?;
    }
    Ok(all)
}

/// The modules of an image, and after them those of a module path whose name none of these has.
/// Time n log n in the modules.
pub fn joined<'a>(
    alloc: Global,
    image: ImageModules<'a>,
    path: VisibleModules,
) -> Result<ModuleSet<'a>, NoMemory>
    requires image { AreModules image }
    requires path { AreVisible path }
    ensures set { (files : Files) (b : List ℕ) → IfOk result (λ set. set_in files b set
        ≡ image_in b image.entry
        ++ unhidden_by (image_in b image.entry) (map (of_folder files) path)) }
    ensures are { IfOk result AreSet }
    ensures from { IfOk result (λ set. All (λ m. IsFrom image.entry path m.0 m.1) (items set)) }
{
    let names = names_of(alloc, image.candidates.as_slice())?;
    let set = image_set(alloc, image)?;
    let (candidates, folders) = path.into_parts();
    Ok(with_unhidden(set, &names, zipped(alloc, candidates, folders)?)?)
}
