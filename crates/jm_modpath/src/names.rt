//! Paths of files, and the names of the resources that they are.
ghost use Rattle.std.specs.Prelude.{◌≡◌, IfOk};
ghost use Rattle.jm_modpath.specs.Modules.{inside, resource_name};

use jm_bytes::{NoMemory, Text, copy_of, extend};
use jm_names::to_modified;
use std::alloc::Global;

/// A name within a folder, as a path.
pub fn inside(alloc: Global, folder: &[u8], name: &[u8]) -> Result<Text, NoMemory>
    ensures { IfOk result (λ path. path ≡ inside folder.now name.now) }
{
    let mut path = copy_of(alloc, folder)?;
    extend(&mut path, b"/")?;
    extend(&mut path, name)?;
    Ok(Text::from_vec(path))
}

/// The name of the resource that a file of a module is, by its path within the module's folder.
pub fn resource_name(alloc: Global, module: &[u8], path: &[u8]) -> Result<Vec<u8>, NoMemory>
    ensures { IfOk result (λ name. name.items ≡ resource_name «module».now path.now) }
{
    let path = to_modified(alloc, path)?;
    let mut name = copy_of(alloc, b"/")?;
    extend(&mut name, module)?;
    extend(&mut name, b"/")?;
    extend(&mut name, path.as_slice())?;
    Ok(name)
}
