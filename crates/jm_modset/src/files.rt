//! The files of the modules that are linked.
ghost use Rattle.std.specs.Prelude.{◌≡◌, ◌≢◌, ◌<◌, ◌++◌, ℕ, List, None, All, AllPairs, IfOk, OnOk};
ghost use Rattle.std.specs.Prelude.{length};
ghost use Rattle.jm_bytes.specs.Results.{IfAnswered};
ghost use Rattle.jm_outside.specs.Files.{Files};
ghost use Rattle.jm_relink.specs.Files.{file_name};
ghost use Rattle.jm_modset.specs.declared.set.ModuleFiles.TheVariants.{Folder, Image};
ghost use Rattle.jm_modset.specs.Files.{AreFilesOf, AreTakenAt, AreTakenOf, IsTakenFrom};
ghost use Rattle.jm_modset.specs.Files.{described_of, entry_file, file_names, folder_file};
ghost use Rattle.jm_modset.specs.Found.{reserved};
ghost use Rattle.jm_modset.specs.Set.{AreSet, IsItem, set_in};
ghost use Rattle.jm_modset.specs.Shown.{AreFit, gathered};

use crate::set::{EntryFiles, ModuleFiles, ModuleSet};
use jm_bytes::{List, NoMemory, Or, Text, copy_of, extend};
use jm_closure::Candidate;
use jm_filed::Extent;
use jm_modpath::{ModuleFolder, inside, resource_name};
use jm_names::{HasName, sorted_by_name};
use jm_relink::ImageFile;
use jm_texts::{Refusal, first_bad_name};
use std::alloc::Global;
use std::cmp::Ordering;

/// Where the content of a file stands.
#[derive(Debug, Drop)]
pub enum Content {
    /// It is that of the file at a path of the shelf.
    File(Text),
    /// It is a part of the file of the image.
    Part(Extent),
}

/// A file of a module that is linked.
#[derive(Debug, Drop)]
pub struct LinkFile {
    /// Its name as a resource, `/module/path`.
    pub name: Text,
    /// Where its content stands.
    pub content: Content,
    /// Its bytes, if they were described: it is the descriptor of a module.
    pub described: Option<Text>,
}

impl HasName for LinkFile {
    ghost use Rattle.jm_modset.specs.Files.{pair_of};

    ghost pair = { pair_of };

    fn name(&self) -> &[u8] {
        self.name.as_slice()
    }

    fn order(&self, other: &LinkFile) -> Ordering {
        self.name.as_slice().cmp(other.name.as_slice())
    }
}

/// The bytes of a file of a module, if they were described.
fn described_of(alloc: Global, info: &[u8], path: &[u8]) -> Result<Option<Text>, NoMemory>
    ensures { IfOk result (λ bytes. bytes ≡ described_of info.now path.now) }
{
    if path == b"module-info.class".as_slice() {
        Ok(Some(Text::copy_of(alloc, info)?))
    } else {
        Ok(None)
    }
}

/// A file of a module on a shelf, by its path within the module's folder.
fn folder_file(
    alloc: Global,
    module: &[u8],
    folder: &ModuleFolder,
    path: &[u8],
) -> Result<LinkFile, NoMemory>
    ensures { IfOk result (λ file. file ≡ folder_file «module».now folder.now path.now) }
{
    Ok(LinkFile {
        name: Text::from_vec(resource_name(alloc, module, path)?),
        content: Content::File(inside(alloc, folder.path.as_slice(), path)?),
        described: described_of(alloc, folder.info.as_slice(), path)?,
    })
}

/// The files of a module on a shelf, rising by name.
fn folder_files(
    alloc: Global,
    module: &Candidate,
    folder: &ModuleFolder,
) -> Result<List<LinkFile>, NoMemory>
    requires { IsItem «module».now (Folder folder.now) }
    ensures { IfOk result (AreTakenOf «module».now (Folder folder.now)) }
{
    let mut files = List::new(alloc);
    for path in folder.files.as_slice() {
        let name = module.descriptor.name.as_slice();
        files.push(folder_file(alloc, name, folder, path.as_slice())?)?;
    }
    Ok(sorted_by_name(files))
}

/// The name of the resource that a file of a module of an image is.
fn file_name(alloc: Global, module: &[u8], path: &[u8]) -> Result<Text, NoMemory>
    ensures { IfOk result (λ name. name ≡ file_name «module».now path.now) }
{
    let mut name = copy_of(alloc, b"/")?;
    extend(&mut name, module)?;
    extend(&mut name, b"/")?;
    extend(&mut name, path)?;
    Ok(Text::from_vec(name))
}

/// A file of a module of an image; `info` is what was described of the module.
fn entry_file(
    alloc: Global,
    module: &[u8],
    info: &[u8],
    file: &ImageFile,
) -> Result<LinkFile, NoMemory>
    ensures { IfOk result (λ given. given ≡ entry_file «module».now info.now file.now) }
{
    let path = file.path.to_text(alloc)?;
    Ok(LinkFile {
        name: file_name(alloc, module, path.as_slice())?,
        content: Content::Part(file.content),
        described: described_of(alloc, info, path.as_slice())?,
    })
}

/// The files of a module of an image, in their order.
fn entry_files(
    alloc: Global,
    module: &Candidate,
    entries: &EntryFiles,
) -> Result<List<LinkFile>, NoMemory>
    ensures { IfOk result (AreTakenOf «module».now (Image entries.now)) }
{
    let mut files = List::new(alloc);
    for file in entries.files.as_slice() {
        let name = module.descriptor.name.as_slice();
        files.push(entry_file(alloc, name, entries.info.as_slice(), file)?)?;
    }
    Ok(files)
}

/// The files of a module, rising by name.
fn module_files(
    alloc: Global,
    module: &Candidate,
    files: &ModuleFiles,
) -> Result<List<LinkFile>, NoMemory>
    requires { IsItem «module».now files.now }
    ensures { IfOk result (AreTakenOf «module».now files.now) }
{
    match files {
        ModuleFiles::Folder(folder) => folder_files(alloc, module, folder),
        ModuleFiles::Image(entries) => entry_files(alloc, module, entries),
    }
}

/// Puts some files after others.
fn append(files: &mut List<LinkFile>, more: List<LinkFile>) -> Result<(), NoMemory>
    ensures { OnOk result (files.new ≡ files.old ++ more) }
{
    for file in more.into_vec() {
        files.push(file)?;
    }
    Ok(())
}

/// The files of the modules at these places, one module after another, each rising by name.
fn files_at(alloc: Global, set: &ModuleSet, places: &[usize]) -> Result<List<LinkFile>, NoMemory>
    requires set { AreSet set.now }
    requires places { All (λ place. place < length set.now.candidates) places.now }
    ensures { IfOk result (AreTakenAt set.now places.now) }
{
    let mut files = List::new(alloc);
    for place in places {
        let module = &set.candidates.as_slice()[*place];
        let of = &set.files.as_slice()[*place];
        append(&mut files, module_files(alloc, module, of)?)?;
    }
    Ok(files)
}

/// The files of the modules at the places of a closure, one module after another, each rising by
/// name, if all of their names may stand in an image; else the refusal of the first that may not.
pub fn link_files(
    alloc: Global,
    set: &ModuleSet,
    places: &[usize],
) -> Result<List<LinkFile>, Or<Refusal>>
    requires set { AreSet set.now }
    requires free { reserved set.now.candidates ≡ None }
    requires places { All (λ place. place < length set.now.candidates) places.now }
    requires once { AllPairs (λ place other. place ≢ other) places.now }
    ensures files { (files : Files) (b : List ℕ) →
        IfAnswered (AreFilesOf (gathered (set_in files b set.now) places.now) files b) result }
    ensures fit { IfOk result (λ fs. AreFit (file_names fs)) }
    ensures taken { IfOk result (All (IsTakenFrom set.now)) }
{
    let files = files_at(alloc, set, places)?;
    match first_bad_name(alloc, files.as_slice())? {
        Some(refusal) => Err(Or::Fault(refusal)),
        None => Ok(files),
    }
}
