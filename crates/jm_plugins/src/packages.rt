//! The packages of modules, from the names of a pool.
ghost use Rattle.std.specs.Prelude.{◌≡◌, ◌∷◌, ◌++◌, [], true, All, IfOk};
ghost use Rattle.std.specs.Prelude.{filter, option_map, OnOk};
ghost use Rattle.std.specs.List.{filter_map};
ghost use Rattle.jm_bytes.specs.Results.{IfAnswered};
ghost use Rattle.jm_form.specs.Trees.{module_of};
ghost use Rattle.jm_names.specs.Names.{dotted};
ghost use Rattle.jm_outside.specs.Files.{after_front};
ghost use Rattle.jm_packages.specs.PackageNames.{is_package_name};
ghost use Rattle.jm_packages.specs.Packages.{Stays};
ghost use Rattle.jm_pool.specs.Pairs.{names_of};
ghost use Rattle.jm_plugins.specs.Packaging.{folder_keys, folder_of, folders_by, is_descriptor};
ghost use Rattle.jm_plugins.specs.Packaging.{listing_text};
ghost use Rattle.jm_plugins.specs.ComputedPlugins.{remade_pairs};
ghost use Rattle.jm_plugins.specs.Steps.{TakenRead};

use crate::chain::BadClass;
use crate::classes::{Remaking, remake_classes};
use jm_bytes::{List, NoMemory, Or, Text, copy_of, extend};
use jm_form::{path_of, rising};
use jm_halves::{Gate, Workers};
use jm_modpath::names_of_folder;
use jm_names::{cut_at_first, cut_at_last, dotted};
use jm_packages::{is_package_name, stays};
use jm_pool::Pool;
use std::alloc::Global;
use std::marker::Model;
use std::thread::Threads;

/// The module of a resource.
pub fn module_of(name: &[u8]) -> &[u8]
    ensures { result.now ≡ module_of name.now }
{
    let Some((_, rest)) = name.split_first() else {
        return &[];
    };
    match cut_at_first(b'/', rest) {
        Some((module, _)) => module,
        None => rest,
    }
}

/// Whether a name is that of a module's descriptor.
pub fn is_descriptor(name: &[u8]) -> bool
    ensures { result ≡ is_descriptor name.now }
{
    name.starts_with(b"/") && path_of(name) == b"module-info.class".as_slice()
}

/// The folder of a resource within its module, if it has one.
fn folder_of(name: &[u8]) -> Option<&[u8]>
    ensures { option_map (λ folder. folder.now) result ≡ folder_of name.now }
{
    if !name.starts_with(b"/") {
        return None;
    }
    let (folder, _) = cut_at_last(b'/', path_of(name))?;
    Some(folder)
}

/// The key of a folder: its module, a slash and the folder with dots.
fn key(alloc: Global, module: &[u8], folder: &[u8]) -> Result<Vec<u8>, NoMemory>
    ensures { IfOk result (λ key. key.items ≡ «module».now ++ 47 ∷ dotted folder.now) }
{
    let package = dotted(alloc, folder)?;
    let mut key = copy_of(alloc, module)?;
    extend(&mut key, b"/")?;
    extend(&mut key, package.as_slice())?;
    Ok(key)
}

/// Keys of folders, which rise.
#[derive(Drop)]
pub struct Keys {
    list: List<Text>,
}

impl Model for Keys {
    ghost use Rattle.std.specs.Prelude.{List, ℕ};
    ghost use Rattle.jm_outside.specs.Files.{Rising};

    ghost Value = { List (List ℕ) };

    ghost view = { λ a. a.list };

    ghost invariant = { λ a. Rising a.list };
}

/// The keys of the folders of all resources of a pool. Time n log n.
fn folder_keys(alloc: Global, pool: &Pool) -> Result<Keys, NoMemory>
    ensures { IfOk result (λ keys. keys ≡ folder_keys (names_of pool.now)) }
{
    let mut keys = Vec::new(alloc);
    for place in 0..pool.len() {
        let (name, _) = pool.at(place);
        if let Some(folder) = folder_of(name) {
            keys.push(key(alloc, module_of(name), folder)?)?;
        }
    }
    let list = rising(alloc, keys)?;
    Ok(Keys { list })
}

/// Puts the folder of a key at the end, if it begins as those of a module do and is a package.
fn put_folder(
    alloc: Global,
    folders: &mut List<Text>,
    front: &[u8],
    key: &[u8],
) -> Result<(), NoMemory>
    ensures { OnOk result (folders.new ≡ folders.old
        ++ filter is_package_name (filter_map (after_front front.now) (key.now ∷ []))) }
{
    if let Some(folder) = key.strip_prefix(front) {
        if is_package_name(folder) {
            folders.push(Text::copy_of(alloc, folder)?)?;
        }
    }
    Ok(())
}

/// The folders of a module that are packages, by the keys of all folders. It looks at no other
/// module's keys, but for the logarithm of their number.
pub fn folders_by(alloc: Global, keys: &Keys, module: &[u8]) -> Result<List<Text>, NoMemory>
    ensures { IfOk result (λ folders. folders ≡ folders_by keys.now «module».now) }
{
    let mut front = Text::copy_of(alloc, module)?;
    front.push(b'/')?;
    let mut folders = List::new(alloc);
    for key in names_of_folder(alloc, keys.list.as_slice(), module)? {
        put_folder(alloc, &mut folders, front.as_slice(), key.as_slice())?;
    }
    Ok(folders)
}

/// Whether a resource stays as it is, whatever the packages are: all but descriptors do, and
/// classes of the release that take no list.
fn stays_at(alloc: Global, release: u32, name: &[u8], bytes: &[u8]) -> Result<bool, NoMemory>
    ensures { IfOk result
        (λ stay. stay ≡ true → is_descriptor name.now ≡ true → Stays release bytes.now) }
{
    if is_descriptor(name) {
        stays(alloc, release, bytes)
    } else {
        Ok(true)
    }
}

/// Whether all resources of a pool stay as they are, whatever the packages are.
fn all_stay(alloc: Global, release: u32, pool: &Pool) -> Result<bool, NoMemory>
    ensures { IfOk result (λ stay. stay ≡ true
        → All (λ pair. is_descriptor pair.0 ≡ true → Stays release pair.1) pool.now) }
{
    for place in 0..pool.len() {
        let (name, bytes) = pool.at(place);
        let stay = stays_at(alloc, release, name, bytes)?;
        if !stay {
            return Ok(false);
        }
    }
    Ok(true)
}

/// Puts for the descriptor of each module its class with the module's packages. The keys of folders
/// are looked for only where a descriptor is to change.
pub fn list_packages<R: Threads + Sync, G: Gate + Sync>(
    workers: &Workers<R, G>,
    release: u32,
    pool: Pool,
) -> Result<Pool, Or<BadClass>>
    ensures computed { IfAnswered
        (λ r. r ≡ remade_pairs release is_descriptor (listing_text (names_of pool)) pool) result }
    ensures read { IfAnswered (λ r. TakenRead release is_descriptor pool) result }
{
    if all_stay(workers.alloc, release, &pool)? {
        return Ok(pool);
    }
    let keys = folder_keys(workers.alloc, &pool)?;
    remake_classes(workers, release, pool, Remaking::Packages(&keys))
}
