//! The modules of a module path: what they say, side by side with their folders.
ghost use Rattle.std.specs.Prelude.{◌≡◌, ◌<◌, IfOk, Some, length, map, slice_get};
ghost use Rattle.jm_modpath.specs.Modules.{candidates};
ghost use Rattle.jm_modpath.specs.ModulesView.{folder_of, module_with_folder, modules_with};

use crate::visible::{ModuleFolder, VisibleModule};
use jm_bytes::{List, NoMemory};
use jm_closure::Candidate;
use std::alloc::Global;
use std::marker::Model;

/// The modules that a module path shows, seen as their list.
#[derive(Drop)]
pub struct VisibleModules {
    candidates: List<Candidate>,
    folders: List<ModuleFolder>,
}

impl Model for VisibleModules {
    ghost use Rattle.std.specs.Prelude.{List, ◌≡◌, length};
    ghost use Rattle.jm_modpath.specs.declared.visible.VisibleModule.{VisibleModule};
    ghost use Rattle.jm_modpath.specs.ModulesView.{modules_with};

    ghost Value = { List VisibleModule };

    ghost view = { λ a. modules_with a.candidates a.folders };

    ghost invariant = { λ a. length a.candidates ≡ length a.folders };
}

/// What the modules say, and their folders.
fn parted(
    alloc: Global,
    modules: List<VisibleModule>,
) -> Result<(List<Candidate>, List<ModuleFolder>), NoMemory>
    ensures candidates { IfOk result (λ parts. parts.0 ≡ candidates modules) }
    ensures folders { IfOk result (λ parts. parts.1 ≡ map folder_of modules) }
{
    let mut candidates = List::new(alloc);
    let mut folders = List::new(alloc);
    for module in modules.into_vec() {
        candidates.push(module.candidate)?;
        folders.push(ModuleFolder {
            path: module.folder,
            info: module.info,
            files: module.files,
        })?;
    }
    Ok((candidates, folders))
}

/// What stands at a place of both lists.
fn both_at<'a>(
    candidates: &'a [Candidate],
    folders: &'a [ModuleFolder],
    place: usize,
) -> (&'a Candidate, &'a ModuleFolder)
    requires long { length candidates.now ≡ length folders.now }
    requires inside { place < length candidates.now }
    ensures { slice_get (modules_with candidates.now folders.now) place
        ≡ Some (module_with_folder (result.0.now, result.1.now)) }
{
    (&candidates[place], &folders[place])
}

impl VisibleModules {
    /// These modules.
    pub fn of(alloc: Global, modules: List<VisibleModule>) -> Result<VisibleModules, NoMemory>
        ensures { IfOk result (λ all. all ≡ modules) }
    {
        let (candidates, folders) = parted(alloc, modules)?;
        Ok(VisibleModules {
            candidates,
            folders,
        })
    }

    /// What the modules say, as a closure takes them.
    pub fn candidates(&self) -> &[Candidate]
        ensures { result.now ≡ candidates self.now }
    {
        self.candidates.as_slice()
    }

    /// What the module at a place says, and its folder.
    pub fn at(&self, place: usize) -> (&Candidate, &ModuleFolder)
        requires { place < length self.now }
        ensures { slice_get self.now place
            ≡ Some (module_with_folder (result.0.now, result.1.now)) }
    {
        both_at(self.candidates.as_slice(), self.folders.as_slice(), place)
    }

    /// What the modules say, and their folders, in the same order.
    pub fn into_parts(self) -> (List<Candidate>, List<ModuleFolder>)
        ensures long { length result.0 ≡ length result.1 }
        ensures modules { modules_with result.0 result.1 ≡ self }
    {
        let VisibleModules {
            candidates,
            folders,
        } = self;
        (candidates, folders)
    }
}
