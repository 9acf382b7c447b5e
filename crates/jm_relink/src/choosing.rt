//! The files of chosen modules as resources.
ghost use Rattle.std.specs.Prelude.{◌≡◌, ◌<◌, ◌∷◌, ℕ, List, [], None, Some, All, IfOk, OnOk};
ghost use Rattle.std.specs.Prelude.{false, length, if◌then◌else◌};
ghost use Rattle.std.specs.List.{list_any};
ghost use Rattle.std.specs.Str.{bytes_eq};
ghost use Rattle.jm_bytes.specs.Results.{IfAnswered};
ghost use Rattle.jm_form.specs.ModuleFiles.{info_name};
ghost use Rattle.jm_names.specs.Names.{is_slash};
ghost use Rattle.jm_filed.specs.Filed.{IsWithin};
ghost use Rattle.jm_relink.specs.Choosing.{Chooses, ChoosesAll, IsChosen, WasRead};
ghost use Rattle.jm_relink.specs.Files.{AllWithin, file_in, files_in};
ghost use Rattle.jm_relink.specs.Gathering.{ArePlaces, AreModules, gathered, HasInfos, LieWithin};
ghost use Rattle.jm_relink.specs.Gathering.{resource_of, resources_with};

use crate::fault::GatherFault;
use crate::modules::{ImageFile, ImageModules};
use crate::names::file_name;
use jm_bytes::{List, NoMemory, Or, Text};
use jm_filed::Extent;
use jm_names::check_name;
use std::alloc::Global;

/// A file of a chosen module, as a resource.
#[derive(Debug, Drop)]
pub struct ChosenFile {
    /// The resource's name, `/module/path`.
    pub name: Text,
    /// Where its content stands in the image's file.
    pub content: Extent,
    /// Its content, if it is the module's descriptor, which was read before.
    pub described: Option<Text>,
}

/// The content of the descriptor, if this is its path.
fn described(alloc: Global, path: &[u8], info: &[u8]) -> Result<Option<Text>, NoMemory>
    ensures { IfOk result (λ text.
        text ≡ (if bytes_eq path.now info_name then Some info.now else None)) }
{
    if path == b"module-info.class".as_slice() {
        Ok(Some(Text::copy_of(alloc, info)?))
    } else {
        Ok(None)
    }
}

/// The resource that a file of a module is; `info` is the content of the module's descriptor.
fn chosen_file(
    alloc: Global,
    module: &[u8],
    info: &[u8],
    file: &ImageFile,
) -> Result<ChosenFile, Or<GatherFault>>
    requires { list_any is_slash «module».now ≡ false }
    ensures file { (b : List ℕ) → WasRead b info.now file.now
        → IfAnswered (IsChosen b (resource_of «module».now (file_in b file.now))) result }
    ensures content { IfOk result (λ chosen. chosen.content ≡ file.now.content) }
{
    let path = file.path.to_text(alloc)?;
    let name = file_name(alloc, module, path.as_slice())?;
    if let Err(fault) = check_name(name.as_slice()) {
        return Err(Or::Fault(GatherFault { name, fault }));
    }
    Ok(ChosenFile {
        name,
        content: file.content,
        described: described(alloc, path.as_slice(), info)?,
    })
}

/// Puts the files of a module at the end as resources; `info` is the content of its descriptor.
fn put_files(
    alloc: Global,
    list: &mut List<ChosenFile>,
    module: &[u8],
    info: &[u8],
    files: &[ImageFile],
) -> Result<(), Or<GatherFault>>
    requires { list_any is_slash «module».now ≡ false }
    ensures chooses { (b : List ℕ) → All (WasRead b info.now) files.now
        → IfAnswered (Chooses b (resources_with «module».now (files_in b files.now))
        list.old list.new) result }
    ensures within { (size : ℕ) → All (λ f. IsWithin size f.content) list.old
        → AllWithin size files.now → OnOk result (All (λ f. IsWithin size f.content) list.new) }
{
    for file in files {
        list.push(chosen_file(alloc, module, info, file)?)?;
    }
    Ok(())
}

/// Puts the files of the module at a place at the end as resources.
fn put_module(
    alloc: Global,
    list: &mut List<ChosenFile>,
    modules: &ImageModules,
    place: usize,
) -> Result<(), Or<GatherFault>>
    requires modules { AreModules modules.now }
    requires within { place < length modules.now.candidates }
    ensures chooses { (b : List ℕ) → HasInfos b modules.now
        → IfAnswered (Chooses b (gathered b modules.now (place ∷ [])) list.old list.new) result }
    ensures within { (size : ℕ) → All (λ f. IsWithin size f.content) list.old
        → LieWithin size modules.now → OnOk result (All (λ f. IsWithin size f.content) list.new) }
{
    let candidate = &modules.candidates.as_slice()[place];
    let info = &modules.infos.as_slice()[place];
    let files = &modules.files.as_slice()[place];
    let module = candidate.descriptor.name.as_slice();
    put_files(alloc, list, module, info.as_slice(), files.as_slice())
}

/// The resources that the files of the modules at these places are, in the order of the places and
/// of each module's files: their names, which are all checked, and where the contents stand.
pub fn chosen_files(
    alloc: Global,
    modules: &ImageModules,
    chosen: &[usize],
) -> Result<List<ChosenFile>, Or<GatherFault>>
    requires modules { AreModules modules.now }
    requires places { ArePlaces modules.now chosen.now }
    ensures chooses { (b : List ℕ) → HasInfos b modules.now
        → IfAnswered (ChoosesAll b (gathered b modules.now chosen.now)) result }
    ensures within { (size : ℕ) → LieWithin size modules.now
        → IfOk result (All (λ f. IsWithin size f.content)) }
{
    let mut list = List::new(alloc);
    for place in chosen {
        put_module(alloc, &mut list, modules, *place)?;
    }
    Ok(list)
}
