//! Packages and their owners.
ghost use Rattle.std.specs.Prelude.{◌≡◌, ◌++◌, map, option_map, IfOk, OnOk};
ghost use Rattle.std.specs.List.{filter_map};
ghost use Rattle.std.specs.Option.{option_to_list};
ghost use Rattle.jm_form.specs.Rising.{rising};
ghost use Rattle.jm_names.specs.Names.{dotted};
ghost use Rattle.jm_nodes.specs.Filings.{filing_of, IsFiledInOrder, FilesAll};
ghost use Rattle.jm_nodes.specs.FrontTrees.{
  called_all,
  folder_of,
  folders_among,
  owner_alone,
  owners_of,
  package_filing,
  package_filings,
  package_folder,
};
ghost use Rattle.jm_nodes.specs.PackagePaths.{called_of};

use crate::children::is_bare;
use crate::filed::{Filed, filed_under, in_order, is_filed};
use crate::package_path::PackagePath;
use jm_bytes::{List, NoMemory, Text};
use jm_form::Owner;
use jm_names::{cut_at_first, dotted};
use std::alloc::Global;

/// A folder that is a package of its module.
#[derive(Drop)]
pub struct PackageFolder<'a> {
    /// The front of names: the module and the folder.
    pub front: &'a [u8],
    pub module: &'a [u8],
    pub path: &'a [u8],
}

/// The folder of a front, where it makes a package.
fn package_folder<'a>(front: &'a [u8]) -> Option<PackageFolder<'a>>
    ensures { option_map folder_of result ≡ package_folder front.now }
{
    let (_, name) = front.split_at(1.min(front.len()));
    let (module, path) = cut_at_first(b'/', name)?;
    if path.starts_with(b"META-INF") {
        return None;
    }
    Some(PackageFolder {
        front,
        module,
        path,
    })
}

/// Puts the folder of a front at the end, where it makes a package.
fn put_package_folder<'a>(
    folders: &mut List<PackageFolder<'a>>,
    front: &'a [u8],
) -> Result<(), NoMemory>
    ensures { OnOk result (map folder_of folders.new
        ≡ map folder_of folders.old ++ option_to_list (package_folder front.now)) }
{
    if let Some(folder) = package_folder(front) {
        folders.push(folder)?;
    }
    Ok(())
}

/// The folders that make packages.
pub fn package_folders<'a>(
    alloc: Global,
    fronts: &[&'a [u8]],
) -> Result<List<PackageFolder<'a>>, NoMemory>
    ensures { IfOk result (λ folders. map folder_of folders
        ≡ filter_map package_folder (map (λ front. front.now) fronts.now)) }
{
    let mut folders = List::with_capacity(alloc, fronts.len())?;
    for front in fronts {
        put_package_folder(&mut folders, front)?;
    }
    Ok(folders)
}

/// What folders are called as packages, in the same order.
pub fn called_all(alloc: Global, folders: &[PackageFolder]) -> Result<List<Text>, NoMemory>
    ensures { IfOk result (λ called. called ≡ called_all (map folder_of folders.now)) }
{
    let mut called = List::with_capacity(alloc, folders.len())?;
    for folder in folders {
        called.push(dotted(alloc, folder.path)?)?;
    }
    Ok(called)
}

/// The packages, each once, rising.
fn rising_packages<'a>(packages: List<PackagePath<'a>>) -> List<PackagePath<'a>>
    ensures { map called_of result ≡ rising (map called_of packages.entry) }
{
    let mut sorted = packages.into_vec();
    sorted.sort_unstable();
    sorted.dedup();
    List::from_vec(sorted)
}

/// Puts the package of a front's folder at the end, where it makes one.
fn put_package<'a>(packages: &mut List<PackagePath<'a>>, front: &'a [u8]) -> Result<(), NoMemory>
    ensures { OnOk result (map called_of packages.new ≡ map called_of packages.old
        ++ called_all (option_to_list (package_folder front.now))) }
{
    if let Some(folder) = package_folder(front) {
        packages.push(PackagePath { path: folder.path })?;
    }
    Ok(())
}

/// The packages of the folders among fronts, each once, rising. No text is made of what they are
/// called.
pub fn packages<'a>(alloc: Global, fronts: &[&'a [u8]]) -> Result<List<PackagePath<'a>>, NoMemory>
    ensures { IfOk result (λ packages. map called_of packages
        ≡ rising (called_all (folders_among (map (λ front. front.now) fronts.now)))) }
{
    let mut packages = List::with_capacity(alloc, fronts.len())?;
    for front in fronts {
        put_package(&mut packages, front)?;
    }
    Ok(rising_packages(packages))
}

/// A folder's module under the package, the mark where the folder has no resource.
fn package_child<'u, 'n>(
    table: &[Filed],
    folder: &PackageFolder<'n>,
    called: &'u [u8],
) -> Filed<'u, 'n>
    requires ordered { IsFiledInOrder (map filing_of table.now) }
    requires called { called.now ≡ dotted folder.now.path.now }
    ensures { filing_of result ≡ package_filing (map filing_of table.now) (folder_of folder.now) }
{
    Filed {
        under: called,
        name: folder.module,
        mark: is_bare(table, folder.front),
    }
}

/// Modules under their packages.
pub fn package_table<'u, 'n>(
    alloc: Global,
    table: &[Filed],
    folders: &[PackageFolder<'n>],
    called: &'u [Text],
) -> Result<List<Filed<'u, 'n>>, NoMemory>
    requires ordered { IsFiledInOrder (map filing_of table.now) }
    requires called { called.now ≡ called_all (map folder_of folders.now) }
    ensures { IfOk result (λ owned. FilesAll
        (package_filings (map filing_of table.now) (map folder_of folders.now))
        (map filing_of owned)) }
{
    let mut list = List::with_capacity(alloc, folders.len())?;
    for place in 0..folders.len() {
        list.push(package_child(table, &folders[place], called[place].as_slice()))?;
    }
    in_order(list)
}

/// Puts an owner at the end; where a module has one folder of the package with a resource and one
/// without, only once.
fn put_owner(
    alloc: Global,
    list: &mut List<Owner>,
    owned: &[Filed],
    filed: &Filed,
) -> Result<(), NoMemory>
    requires { IsFiledInOrder (map filing_of owned.now) }
    ensures { OnOk result
        (list.new ≡ list.old ++ owner_alone (map filing_of owned.now) (filing_of filed.now)) }
{
    let full = Filed {
        mark: false,
        ..*filed
    };
    if filed.mark && is_filed(owned, &full) {
        return Ok(());
    }
    list.push(Owner {
        empty: filed.mark,
        module: Text::copy_of(alloc, filed.name)?,
    })
}

/// The modules that have a package, rising.
pub fn owners(alloc: Global, owned: &[Filed], called: &[u8]) -> Result<List<Owner>, NoMemory>
    requires { IsFiledInOrder (map filing_of owned.now) }
    ensures { IfOk result (λ list. list ≡ owners_of (map filing_of owned.now) called.now) }
{
    let found = filed_under(owned, called);
    let mut list = List::with_capacity(alloc, found.len())?;
    for filed in found {
        put_owner(alloc, &mut list, owned, filed)?;
    }
    Ok(list)
}
