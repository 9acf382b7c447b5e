//! The files of an image module by module, of the modules that have a descriptor.
ghost use Rattle.std.specs.Prelude.{◌≡◌, ◌∷◌, ◌++◌, [], ℕ, List, All, IfOk, IfSome, map};
ghost use Rattle.std.specs.Prelude.{Some, filter, option_map, option_to_list};
ghost use Rattle.jm_filed.specs.Filed.{IsWithin};
ghost use Rattle.jm_filed.specs.Taken.{LieWithin, taken_as};
ghost use Rattle.jm_names.specs.ByName.{Named};
ghost use Rattle.jm_relink.specs.Entries.{FilesWithin, HasExtent};
ghost use Rattle.jm_relink.specs.Files.{Filed, located, located_among};
ghost use Rattle.jm_relink.specs.Groups.{GroupWithin, KnowsInfo, begun_group, described_from};
ghost use Rattle.jm_relink.specs.Groups.{files_of, group_in, groups, has_info};

use crate::entries::ModuleEntries;
use crate::lists::push_some;
use crate::modules::ImageFile;
use crate::names::module_and_path;
use crate::path::ImagePath;
use jm_bytes::{List, NoMemory, Text};
use jm_filed::{Extent, TakenEntry};
use std::alloc::Global;

/// A module and the first of its files.
#[derive(Debug, Drop)]
pub struct ModuleFiles<'a> {
    /// The module's name.
    pub module: Text,
    /// Where the content of its `module-info.class` stands, if that is one of the files.
    pub info: Option<Extent>,
    /// The files.
    pub files: List<ImageFile<'a>>,
}

/// The module of some files, if its `module-info.class` is one of them.
fn described<'a>(group: Option<ModuleFiles<'a>>) -> Option<ModuleEntries<'a>>
    requires { IfSome group KnowsInfo }
    ensures group { (b : List ℕ) → option_to_list (option_map (group_in b) result)
        ≡ described_from (option_map (files_of b) group.entry) [] }
    ensures info { IfSome result HasExtent }
    ensures within { (size : ℕ) → IfSome group.entry (GroupWithin size)
        → IfSome result (FilesWithin size) }
{
    let ModuleFiles {
        module,
        info,
        files,
    } = group?;
    let info = info?;
    Some(ModuleEntries {
        module,
        info,
        files,
    })
}

/// A module without files.
fn begun<'a>(alloc: Global, called: &[u8]) -> Result<ModuleFiles<'a>, NoMemory>
    ensures { IfOk result (λ group. group ≡ begun_group called.now) }
{
    Ok(ModuleFiles {
        module: Text::copy_of(alloc, called)?,
        info: None,
        files: List::new(alloc),
    })
}

/// The files of a module so far: those of the current group, if it is this module's. Another group
/// is done.
fn group_of<'a>(
    alloc: Global,
    done: &mut List<ModuleEntries<'a>>,
    current: Option<ModuleFiles<'a>>,
    called: &[u8],
) -> Result<ModuleFiles<'a>, NoMemory>
    requires { IfSome current KnowsInfo }
    ensures name { IfOk result (λ group. group.module ≡ called.now) }
    ensures group { (b : List ℕ) → IfOk result (λ group. (f : Named) (rest : List Filed)
        → map (group_in b) done.new
        ++ described_from (Some (files_of b group)) ((called.now, f) ∷ rest)
        ≡ map (group_in b) done.old
        ++ described_from (option_map (files_of b) current.entry) ((called.now, f) ∷ rest)) }
    ensures info { IfOk result KnowsInfo }
    ensures infos { All HasExtent done.old → IfOk result (λ _. All HasExtent done.new) }
    ensures within { (size : ℕ) → All (FilesWithin size) done.old
        → IfSome current.entry (GroupWithin size)
        → IfOk result (λ group. All (FilesWithin size) done.new × GroupWithin size group) }
{
    let Some(group) = current else {
        return begun(alloc, called);
    };
    if group.module.as_slice() == called {
        return Ok(group);
    }
    push_some(done, described(Some(group)))?;
    begun(alloc, called)
}

/// The files of a module with one more, of this path.
fn with_file<'a>(
    group: ModuleFiles<'a>,
    path: &[u8],
    file: ImageFile<'a>,
) -> Result<ModuleFiles<'a>, NoMemory>
    requires path { file.path ≡ path.now }
    requires info { KnowsInfo group }
    ensures name { IfOk result (λ next. next.module ≡ group.entry.module) }
    ensures files { IfOk result (λ next. next.files ≡ group.entry.files ++ file.entry ∷ []) }
    ensures info { IfOk result KnowsInfo }
{
    let ModuleFiles {
        module,
        mut info,
        mut files,
    } = group;
    if info.is_none() && path == b"module-info.class".as_slice() {
        info = Some(file.content);
    }
    files.push(file)?;
    Ok(ModuleFiles {
        module,
        info,
        files,
    })
}

/// One entry more after those of the current group: it is a further file of this module, or the
/// first one of the next, or no file of a module. Its name is made a text for that, and let go.
fn with_entry<'a>(
    alloc: Global,
    done: &mut List<ModuleEntries<'a>>,
    current: Option<ModuleFiles<'a>>,
    entry: TakenEntry<'a>,
) -> Result<Option<ModuleFiles<'a>>, NoMemory>
    requires { IfSome current KnowsInfo }
    ensures group { (b : List ℕ) → IfOk result (λ next. (rest : List Filed)
        → map (group_in b) done.new ++ described_from (option_map (files_of b) next) rest
        ≡ map (group_in b) done.old ++ described_from (option_map (files_of b) current.entry)
        (option_to_list (located (taken_as b entry.entry)) ++ rest)) }
    ensures info { IfOk result (λ next. IfSome next KnowsInfo) }
    ensures infos { All HasExtent done.old → IfOk result (λ _. All HasExtent done.new) }
    ensures within { (size : ℕ) → All (FilesWithin size) done.old
        → IfSome current.entry (GroupWithin size) → IsWithin size entry.entry.content
        → IfOk result (λ next. All (FilesWithin size) done.new
        × IfSome next (GroupWithin size)) }
{
    let TakenEntry { name, content } = entry;
    let text = name.view().to_text(alloc)?;
    let Some((module, path)) = module_and_path(text.as_slice()) else {
        return Ok(current);
    };
    let group = group_of(alloc, done, current, module)?;
    // The path stands after the module and its two slashes.
    let file = ImageFile {
        path: ImagePath::of(name, module.len() + 2),
        content,
    };
    Ok(Some(with_file(group, path, file)?))
}

/// The modules among entries of which those of one module stand side by side: those whose
/// `module-info.class` is there, in the order of the entries.
pub fn described_modules<'a>(
    alloc: Global,
    entries: List<TakenEntry<'a>>,
) -> Result<List<ModuleEntries<'a>>, NoMemory>
    ensures groups { (b : List ℕ) → IfOk result (λ modules.
        map (group_in b) modules ≡ filter has_info (groups (located_among b entries.entry))) }
    ensures infos { IfOk result (All HasExtent) }
    ensures within { (size : ℕ) → LieWithin size entries.entry
        → IfOk result (All (FilesWithin size)) }
{
    let mut done = List::new(alloc);
    let mut current = None;
    for entry in entries.into_vec() {
        current = with_entry(alloc, &mut done, current, entry)?;
    }
    push_some(&mut done, described(current))?;
    Ok(done)
}
