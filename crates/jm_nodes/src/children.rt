//! What stands directly in modules and folders.
ghost use Rattle.std.specs.Prelude.{◌≡◌, ◌++◌, map, not, IfOk, OnOk};
ghost use Rattle.std.specs.List.{list_any};
ghost use Rattle.jm_nodes.specs.Filings.{filed_under, filing_of, IsFiledInOrder, FilesAll};
ghost use Rattle.jm_nodes.specs.FrontTrees.{
  child_filing,
  child_filings,
  children_of,
  entry_of,
  is_bare,
};

use crate::filed::{Filed, filed_under, in_order};
use crate::texts::{before_last_slash, joined};
use jm_bytes::{List, NoMemory, Text};
use std::alloc::Global;

/// Puts resources or folders at the end, each under what it stands in, the mark for a folder.
fn put_children<'a>(
    list: &mut List<Filed<'a, 'a>>,
    names: &[&'a [u8]],
    are_folders: bool,
) -> Result<(), NoMemory>
    ensures { OnOk result (map filing_of list.new ≡ map filing_of list.old
        ++ map (child_filing are_folders) (map (λ name. name.now) names.now)) }
{
    for name in names {
        list.push(Filed {
            under: before_last_slash(name),
            name,
            mark: are_folders,
        })?;
    }
    Ok(())
}

/// Resources and folders under what they stand in.
pub fn child_table<'a>(
    alloc: Global,
    names: &[&'a [u8]],
    fronts: &[&'a [u8]],
) -> Result<List<Filed<'a, 'a>>, NoMemory>
    ensures { IfOk result (λ table. FilesAll
        (child_filings (map (λ name. name.now) names.now) (map (λ front. front.now) fronts.now))
        (map filing_of table)) }
{
    let mut list = List::with_capacity(alloc, names.len().saturating_add(fronts.len()))?;
    put_children(&mut list, names, false)?;
    put_children(&mut list, fronts, true)?;
    in_order(list)
}

/// The name of a child's entry.
fn entry_name(alloc: Global, child: &Filed) -> Result<Text, NoMemory>
    ensures { IfOk result (λ name. name ≡ entry_of (filing_of child.now)) }
{
    if child.mark {
        joined(alloc, b"/modules", child.name)
    } else {
        Text::copy_of(alloc, child.name)
    }
}

/// The names of the entries of what stands directly in a module or folder.
pub fn children(alloc: Global, table: &[Filed], front: &[u8]) -> Result<List<Text>, NoMemory>
    requires { IsFiledInOrder (map filing_of table.now) }
    ensures { IfOk result (λ names. names ≡ children_of (map filing_of table.now) front.now) }
{
    let found = filed_under(table, front);
    let mut names = List::with_capacity(alloc, found.len())?;
    for child in found {
        names.push(entry_name(alloc, child)?)?;
    }
    Ok(names)
}

/// One of these is a resource.
fn has_resource(children: &[Filed]) -> bool
    ensures { result ≡ list_any (λ child. not child.mark) children.now }
{
    children.iter().any(|child| !child.mark)
}

/// No resource stands directly in a folder.
pub fn is_bare(table: &[Filed], front: &[u8]) -> bool
    requires { IsFiledInOrder (map filing_of table.now) }
    ensures { result ≡ is_bare (map filing_of table.now) front.now }
{
    !has_resource(filed_under(table, front))
}
