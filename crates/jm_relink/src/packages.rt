//! The class packages of a module, from its files.
ghost use Rattle.std.specs.Prelude.{◌≡◌, ◌++◌, ℕ, List, Contains, IfOk, IsTrue, OnOk};
ghost use Rattle.std.specs.Prelude.{option_to_list};
ghost use Rattle.jm_form.specs.ModuleFiles.{class_package};
ghost use Rattle.jm_form.specs.Rising.{items_of, rising};
ghost use Rattle.jm_relink.specs.Files.{files_in};
ghost use Rattle.jm_relink.specs.Packages.{packages_of};

use crate::modules::ImageFile;
use jm_bytes::{List, NoMemory, Text};
use jm_form::{class_folder, rising};
use jm_names::dotted;
use std::alloc::Global;

/// The package is the last one.
fn is_last(packages: &[Vec<u8>], package: &[u8]) -> bool
    ensures { IsTrue result → Contains (items_of packages.now) «package».now }
{
    match packages.last() {
        Some(last) => last.as_slice() == package,
        None => false,
    }
}

/// Puts the package in which a file is a class at the end. Classes of one package stand side by
/// side, so it isn't put again where it is the last one.
fn put_package(alloc: Global, packages: &mut Vec<Vec<u8>>, file: &ImageFile) -> Result<(), NoMemory>
    ensures { OnOk result (rising (items_of packages.new.items)
        ≡ rising (items_of packages.old.items ++ option_to_list (class_package file.now.path))) }
{
    let path = file.path.to_text(alloc)?;
    let Some(folder) = class_folder(path.as_slice()) else {
        return Ok(());
    };
    let package = dotted(alloc, folder)?;
    if !is_last(packages.as_slice(), package.as_slice()) {
        packages.push(package.into_vec())?;
    }
    Ok(())
}

/// The packages in which files of a module are classes, rising. Each path is made a text for that,
/// and let go.
pub fn class_packages(alloc: Global, files: &[ImageFile]) -> Result<List<Text>, NoMemory>
    ensures { (b : List ℕ) → IfOk result (λ packages.
        packages ≡ packages_of (files_in b files.now)) }
{
    let mut packages = Vec::new(alloc);
    for file in files {
        put_package(alloc, &mut packages, file)?;
    }
    rising(alloc, packages)
}
