//! Names of resources, `/module/path`.
ghost use Rattle.std.specs.Prelude.{◌≡◌, IfOk, option_map};
ghost use Rattle.jm_relink.specs.Files.{file_name, module_and_path};

use jm_bytes::{NoMemory, Text, copy_of, extend};
use jm_names::cut_at_first;
use std::alloc::Global;

/// The name of the resource that a file of a module is.
pub fn file_name(alloc: Global, module: &[u8], path: &[u8]) -> Result<Text, NoMemory>
    ensures { IfOk result (λ name. name ≡ file_name «module».now path.now) }
{
    let mut name = copy_of(alloc, b"/")?;
    extend(&mut name, module)?;
    extend(&mut name, b"/")?;
    extend(&mut name, path)?;
    Ok(Text::from_vec(name))
}

/// The module and the path of a resource.
pub fn module_and_path(name: &[u8]) -> Option<(&[u8], &[u8])>
    ensures { option_map (λ cut. (cut.0.now, cut.1.now)) result ≡ module_and_path name.now }
{
    let (first, rest) = name.split_first()?;
    if *first == b'/' {
        cut_at_first(b'/', rest)
    } else {
        None
    }
}
