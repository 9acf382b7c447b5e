//! All nodes of the two trees.
ghost use Rattle.std.specs.Prelude.{◌≡◌, ◌+◌, ◌≤◌, ◌++◌, All, Some, None, false, length, map};
ghost use Rattle.std.specs.Prelude.{reverse, IfErr, IfOk, OnOk};
ghost use Rattle.jm_bytes.specs.Results.{IfAnswered};
ghost use Rattle.jm_form.specs.Rising.{rising};
ghost use Rattle.jm_form.specs.Trees.{first_clash, fronts, package_node, tree_nodes};
ghost use Rattle.jm_names.specs.NameFaults.{IsSound};
ghost use Rattle.jm_names.specs.Names.{is_node};
ghost use Rattle.jm_pool.specs.Pairs.{names_of};
ghost use Rattle.jm_nodes.specs.Filings.{filing_of, IsFiledInOrder};
ghost use Rattle.jm_nodes.specs.FrontTrees.{
  called_all,
  folders_among,
  front_node,
  owners_node,
  packages_node,
  rising_nodes,
  IsMadeOf,
};
ghost use Rattle.jm_nodes.specs.PackagePaths.{called_of};
ghost use Rattle.jm_nodes.specs.Refusals.{IsRefused};

use crate::children::{child_table, children};
use crate::filed::Filed;
use crate::fronts::fronts_of;
use crate::names::{first_front, rising_names};
use crate::package_path::PackagePath;
use crate::packages::{called_all, owners, package_folders, package_table, packages};
use crate::texts::joined;
use jm_bytes::{List, NoMemory, Or, Text};
use jm_form::{Holds, TreeNode};
use jm_names::dotted;
use jm_pool::Pool;
use std::alloc::Global;

/// The least name of a resource that is also the name of another's folder.
#[derive(Debug, Drop)]
pub struct Clash(pub Text);

/// Why there are no nodes, in the order in which it is looked for.
#[derive(Debug, Drop)]
pub enum NodesFault {
    /// The least name of a resource that is also the name of another's folder.
    Clash(Text),
    /// There would be that many nodes, more than there is room for.
    TooMany(usize),
}

/// The node of a module or folder.
fn front_node(alloc: Global, table: &[Filed], front: &[u8]) -> Result<TreeNode, NoMemory>
    requires { IsFiledInOrder (map filing_of table.now) }
    ensures { IfOk result (λ node. node ≡ front_node (map filing_of table.now) front.now) }
{
    let name = joined(alloc, b"/modules", front)?;
    let holds = Holds::Children(children(alloc, table, front)?);
    Ok(TreeNode { name, holds })
}

/// Puts the nodes of modules and folders at the end.
fn put_front_nodes(
    alloc: Global,
    nodes: &mut List<TreeNode>,
    table: &[Filed],
    fronts: &[&[u8]],
) -> Result<(), NoMemory>
    requires { IsFiledInOrder (map filing_of table.now) }
    ensures { OnOk result (nodes.new ≡ nodes.old
        ++ map (front_node (map filing_of table.now)) (map (λ front. front.now) fronts.now)) }
{
    for front in fronts {
        nodes.push(front_node(alloc, table, front)?)?;
    }
    Ok(())
}

/// The name of a package's node.
fn package_node(alloc: Global, called: &[u8]) -> Result<Text, NoMemory>
    ensures { IfOk result (λ name. name ≡ package_node called.now) }
{
    joined(alloc, b"/packages/", called)
}

/// The node of all packages.
fn packages_node(alloc: Global, packages: &[PackagePath]) -> Result<TreeNode, NoMemory>
    ensures { IfOk result (λ node. node ≡ packages_node (map called_of packages.now)) }
{
    let mut names = List::with_capacity(alloc, packages.len())?;
    for folder in packages {
        let called = dotted(alloc, folder.path)?;
        names.push(package_node(alloc, called.as_slice())?)?;
    }
    let name = Text::copy_of(alloc, b"/packages")?;
    let holds = Holds::Children(names);
    Ok(TreeNode { name, holds })
}

/// The node of a package.
fn owners_node(alloc: Global, owned: &[Filed], folder: &PackagePath) -> Result<TreeNode, NoMemory>
    requires { IsFiledInOrder (map filing_of owned.now) }
    ensures { IfOk result
        (λ node. node ≡ owners_node (map filing_of owned.now) (called_of folder.now)) }
{
    let called = dotted(alloc, folder.path)?;
    let name = package_node(alloc, called.as_slice())?;
    let holds = Holds::Owners(owners(alloc, owned, called.as_slice())?);
    Ok(TreeNode { name, holds })
}

/// Puts the nodes of packages at the end.
fn put_owners_nodes(
    alloc: Global,
    nodes: &mut List<TreeNode>,
    owned: &[Filed],
    packages: &[PackagePath],
) -> Result<(), NoMemory>
    requires { IsFiledInOrder (map filing_of owned.now) }
    ensures { OnOk result (nodes.new ≡ nodes.old
        ++ map (owners_node (map filing_of owned.now)) (map called_of packages.now)) }
{
    for folder in packages {
        nodes.push(owners_node(alloc, owned, folder)?)?;
    }
    Ok(())
}

/// The nodes, rising by name.
fn rising_nodes(
    alloc: Global,
    table: &[Filed],
    fronts: &[&[u8]],
    owned: &[Filed],
    packages: &[PackagePath],
) -> Result<List<TreeNode>, NoMemory>
    requires children { IsFiledInOrder (map filing_of table.now) }
    requires owners { IsFiledInOrder (map filing_of owned.now) }
    ensures { IfOk result (λ nodes. nodes ≡ rising_nodes
        (map filing_of table.now) (map (λ front. front.now) fronts.now)
        (map filing_of owned.now) (map called_of packages.now)) }
{
    let mut nodes = List::new(alloc);
    nodes.push(front_node(alloc, table, &[])?)?;
    put_front_nodes(alloc, &mut nodes, table, fronts)?;
    nodes.push(packages_node(alloc, packages)?)?;
    put_owners_nodes(alloc, &mut nodes, owned, packages)?;
    Ok(nodes)
}

/// The nodes of resources whose names, fronts and packages these are, falling by name.
fn nodes_of<'a>(
    alloc: Global,
    names: &[&'a [u8]],
    fronts: &[&'a [u8]],
    packages: &[PackagePath<'a>],
) -> Result<List<TreeNode>, NoMemory>
    requires { map called_of packages.now
        ≡ rising (called_all (folders_among (map (λ front. front.now) fronts.now))) }
    ensures { IfOk result (λ nodes. IsMadeOf (map (λ name. name.now) names.now)
        (map (λ front. front.now) fronts.now) nodes) }
{
    let table = child_table(alloc, names, fronts)?;
    let folders = package_folders(alloc, fronts)?;
    let called = called_all(alloc, folders.as_slice())?;
    let owned = package_table(
        alloc,
        table.as_slice(),
        folders.as_slice(),
        called.as_slice(),
    )?;
    let nodes = rising_nodes(alloc, table.as_slice(), fronts, owned.as_slice(), packages)?;
    let mut falling = nodes.into_vec();
    falling.reverse();
    Ok(List::from_vec(falling))
}

/// How many nodes there are with that many fronts and packages: one for each, and the two roots.
/// No memory holds more fronts and packages than a number counts.
fn count_of(fronts: usize, packages: usize) -> Result<usize, NoMemory>
    ensures { IfOk result (λ count. count ≡ 2 + fronts + packages) }
{
    let both = fronts.checked_add(packages).ok_or(NoMemory)?;
    both.checked_add(2).ok_or(NoMemory)
}

/// The nodes of the trees of a pool's resources, falling by name, where they are no more than there
/// is room for. Their number is known before any node is made, and what is kept up to then is in
/// proportion to the number of resources and folders.
///
/// # Errors
///
/// The first of the refusals that holds, in the order of [`NodesFault`].
pub fn nodes_within(
    alloc: Global,
    pool: &Pool,
    room: usize,
) -> Result<List<TreeNode>, Or<NodesFault>>
    requires sound { All IsSound (names_of pool.now) }
    requires resources { All (λ name. is_node name ≡ false) (names_of pool.now) }
    ensures nodes { IfOk result (λ nodes. nodes ≡ tree_nodes (names_of pool.now)) }
    ensures within { OnOk result (length (tree_nodes (names_of pool.now)) ≤ room) }
    ensures apart { OnOk result (first_clash (names_of pool.now) ≡ None) }
    ensures refused { IfAnswered (λ r. IfErr r (IsRefused (names_of pool.now) room)) result }
{
    let listed = rising_names(alloc, pool)?;
    let names = listed.as_slice();
    let risen = fronts_of(alloc, names)?;
    let fronts = risen.as_slice();
    if let Some(name) = first_front(names, fronts) {
        return Err(Or::Fault(NodesFault::Clash(Text::copy_of(alloc, name)?)));
    }
    let paths = packages(alloc, fronts)?;
    let packages = paths.as_slice();
    let count = count_of(fronts.len(), packages.len())?;
    if count > room {
        return Err(Or::Fault(NodesFault::TooMany(count)));
    }
    Ok(nodes_of(alloc, names, fronts, packages)?)
}

/// The nodes of the trees of a pool's resources, falling by name.
pub fn nodes(alloc: Global, pool: &Pool) -> Result<List<TreeNode>, Or<Clash>>
    requires sound { All IsSound (names_of pool.now) }
    requires resources { All (λ name. is_node name ≡ false) (names_of pool.now) }
    ensures nodes { IfOk result (λ nodes. nodes ≡ tree_nodes (names_of pool.now)) }
    ensures apart { OnOk result (first_clash (names_of pool.now) ≡ None) }
    ensures clash { IfAnswered (λ r. IfErr r
        (λ clash. first_clash (names_of pool.now) ≡ Some clash.0)) result }
{
    match nodes_within(alloc, pool, usize::MAX) {
        Ok(nodes) => Ok(nodes),
        Err(Or::Fault(NodesFault::Clash(name))) => Err(Or::Fault(Clash(name))),
        // No count is above the greatest number.
        Err(Or::Fault(NodesFault::TooMany(_)) | Or::Memory) => Err(Or::Memory),
    }
}
