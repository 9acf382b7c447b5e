//! The class packages of a module, from its files.
ghost use Rattle.std.specs.Prelude.{◌≡◌, IfOk, map};
ghost use Rattle.jm_form.specs.Trees.{class_packages};
ghost use Rattle.jm_modpath.specs.Modules.{resource_name};

use crate::names::resource_name;
use jm_bytes::{List, NoMemory, Text};
use jm_form::{class_folder, path_of, rising};
use jm_names::dotted;
use std::alloc::Global;

/// The packages in which a module has classes, rising, from the paths of its files.
pub fn class_packages(alloc: Global, module: &[u8], paths: &[Text]) -> Result<List<Text>, NoMemory>
    ensures { IfOk result (λ packages.
        packages ≡ class_packages (map (resource_name «module».now) paths.now)) }
{
    let mut packages = Vec::new(alloc);
    for path in paths {
        let name = resource_name(alloc, module, path.as_slice())?;
        if let Some(folder) = class_folder(path_of(name.as_slice())) {
            packages.push(dotted(alloc, folder)?.into_vec())?;
        }
    }
    rising(alloc, packages)
}
