//! Files of a module, and those that are classes in a package.
ghost use Rattle.std.specs.Prelude.{◌≡◌, option_map};
ghost use Rattle.jm_form.specs.ModuleFiles.{class_folder};
ghost use Rattle.jm_form.specs.Trees.{path_of};

use jm_names::{cut_at_first, cut_at_last};

/// The path of a resource within its module.
pub fn path_of(name: &[u8]) -> &[u8]
    ensures { result.now ≡ path_of name.now }
{
    let Some((_, rest)) = name.split_first() else {
        return &[];
    };
    match cut_at_first(b'/', rest) {
        Some((_, path)) => path,
        None => &[],
    }
}

/// The folder of a path within a module that is that of a class in a package.
pub fn class_folder(path: &[u8]) -> Option<&[u8]>
    ensures { option_map (λ folder. folder.now) result ≡ class_folder path.now }
{
    if !path.ends_with(b".class") {
        return None;
    }
    let (folder, _) = cut_at_last(b'/', path)?;
    if folder.is_empty() || folder.starts_with(b"META-INF") {
        None
    } else {
        Some(folder)
    }
}
