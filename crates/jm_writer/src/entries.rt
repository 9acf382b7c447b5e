//! The names of all entries, and the sizes of their contents.
ghost use Rattle.std.specs.Prelude.{◌≡◌, ◌<◌, ◌^◌, ◌++◌, List, length, map, sum, All, IfOk, OnOk};
ghost use Rattle.jm_form.specs.Layout.{Sized, holds_size, sized, sized_node};
ghost use Rattle.jm_writer.specs.Parts.{IsOfEntries};

use jm_bytes::{List, NoMemory, Text};
use jm_form::{Holds, TreeNode};
use jm_pool::Pool;
use std::alloc::Global;

/// Entries by their names and the sizes of their contents, one list beside the other.
#[derive(Drop)]
pub struct Entries {
    /// Their names.
    pub names: List<Text>,
    /// The sizes of their contents in bytes.
    pub sizes: List<u64>,
}

/// The entries of the resources, with room for that many entries.
pub fn resources_of(alloc: Global, pool: &Pool, room: usize) -> Result<Entries, NoMemory>
    ensures { IfOk result (IsOfEntries (map sized pool.now)) }
{
    let mut names = Vec::with_capacity(alloc, room)?;
    let mut sizes = Vec::with_capacity(alloc, room)?;
    for place in 0..pool.len() {
        let (name, bytes) = pool.at(place);
        names.push(Text::copy_of(alloc, name)?)?;
        sizes.push(bytes.len() as u64)?;
    }
    Ok(Entries {
        names: List::from_vec(names),
        sizes: List::from_vec(sizes),
    })
}

/// The size of a node's content in bytes.
fn holds_size(holds: &Holds) -> u64
    requires { holds_size holds.now < 2 ^ 64 }
    ensures { result ≡ holds_size holds.now }
{
    match holds {
        Holds::Children(names) => 4 * names.len() as u64,
        Holds::Owners(owners) => 8 * owners.len() as u64,
    }
}

/// Puts the entries of the nodes at the end.
pub fn add_nodes(alloc: Global, entries: &mut Entries, nodes: &[TreeNode]) -> Result<(), NoMemory>
    requires { All (λ node. holds_size node.holds < 2 ^ 64) nodes.now }
    ensures { (front : List Sized) → IsOfEntries front entries.old
        → OnOk result (IsOfEntries (front ++ map sized_node nodes.now) entries.new) }
{
    for node in nodes {
        entries
            .names
            .push(Text::copy_of(alloc, node.name.as_slice())?)?;
        entries.sizes.push(holds_size(&node.holds))?;
    }
    Ok(())
}

/// No memory has that many bytes.
const MEMORY_LIMIT: u64 = 1 << 63;

/// How many bytes contents of these sizes have. Those of a pool are in memory at one time, and so
/// have fewer than 2^63. The types say so of each content alone, so it is asked here, where more
/// would be want of memory; no sum after this one has to be asked.
pub fn contents_length(sizes: &[u64]) -> Result<u64, NoMemory>
    ensures length { IfOk result (λ n. n ≡ sum sizes.now) }
    ensures few { IfOk result (λ n. n < 2 ^ 63) }
{
    let mut length = 0;
    for size in sizes {
        if *size >= MEMORY_LIMIT - length {
            return Err(NoMemory);
        }
        length += *size;
    }
    Ok(length)
}
