//! The plan of an image.
ghost use Rattle.std.specs.Prelude.{◌≡◌, ◌+◌, ◌≤◌, ◌⊎◌, ℕ, List, length, false, Some, None, All};
ghost use Rattle.jm_bytes.specs.Results.{IfAnswered};
ghost use Rattle.jm_bytes.specs.declared.faults.Or.TheVariants.{Fault, Memory};
ghost use Rattle.jm_names.specs.Names.{is_node};
ghost use Rattle.jm_names.specs.NameFaults.{IsSound};
ghost use Rattle.jm_form.specs.Layout.{layout, names_of};
ghost use Rattle.jm_form.specs.Trees.{first_clash, tree_nodes};
ghost use Rattle.jm_writer.specs.Drafts.{NoClash, Plans, entry_limit, image_limit};
ghost use Rattle.jm_writer.specs.Laid.{IsLaidOut};
ghost use Rattle.jm_writer.specs.declared.draft.PlanFault.TheVariants.{TooMany};

use crate::draft::{Draft, PlanFault};
use crate::entries::{add_nodes, resources_of};
use crate::index::index_bytes;
use crate::laying::{lay_out, table_of};
use crate::tail::tail_bytes;
use jm_bytes::{Or, Order};
use jm_form::TreeNode;
use jm_nodes::{NodesFault, nodes_within};
use jm_pool::Pool;
use std::alloc::Global;

/// The most entries that an image has.
const ENTRY_LIMIT: usize = 1_048_576;

/// The plan of a pool, by its nodes.
fn plan_with(
    alloc: Global,
    order: Order,
    pool: &Pool,
    nodes: &[TreeNode],
) -> Result<Draft, Or<PlanFault>>
    requires sound { All IsSound (names_of pool.now) }
    requires resources { All (λ name. is_node name ≡ false) (names_of pool.now) }
    requires apart { first_clash (names_of pool.now) ≡ None }
    requires nodes { nodes.now ≡ tree_nodes (names_of pool.now) }
    requires few { length pool.now + length nodes.now ≤ entry_limit }
    ensures { IfAnswered (Plans order pool.now) result }
{
    let count = pool.len() + nodes.len();
    let mut entries = resources_of(alloc, pool, count)?;
    add_nodes(alloc, &mut entries, nodes)?;
    let table = table_of(alloc, entries.names.as_slice())?;
    let laid = lay_out(alloc, &entries, &table)?;
    let tail = tail_bytes(alloc, order, &table, &laid, nodes)?;
    let index = index_bytes(alloc, order, count as u32, &table, &laid)?;
    Ok(Draft {
        order,
        index,
        tail,
        length: laid.length,
        slots: table.length,
    })
}

/// The refusal of that many resources and nodes. No memory holds more than a number counts.
fn too_many(resources: usize, nodes: usize) -> Or<PlanFault>
    ensures { (result ≡ Memory) ⊎ (result ≡ Fault (TooMany (resources + nodes))) }
{
    match resources.checked_add(nodes) {
        Some(count) => Or::Fault(PlanFault::TooMany(count as u64)),
        None => Or::Memory,
    }
}

/// The plan of the image of a pool: all of its bytes but those of the resources.
///
/// # Errors
///
/// The first in the order of [`PlanFault`].
pub fn plan(alloc: Global, order: Order, pool: &Pool) -> Result<Draft, Or<PlanFault>>
    requires sound { All IsSound (names_of pool.now) }
    requires resources { All (λ name. is_node name ≡ false) (names_of pool.now) }
    ensures plans { IfAnswered (Plans order pool.now) result }
    ensures laid { (image : List ℕ) → NoClash pool.now → layout order pool.now ≡ Some image
        → length image ≤ image_limit → IsLaidOut order pool.now image }
{
    let resources = pool.len();
    match nodes_within(alloc, pool, ENTRY_LIMIT.saturating_sub(resources)) {
        Ok(nodes) => plan_with(alloc, order, pool, nodes.as_slice()),
        Err(Or::Fault(NodesFault::Clash(name))) => Err(Or::Fault(PlanFault::Clash(name))),
        Err(Or::Fault(NodesFault::TooMany(count))) => Err(too_many(resources, count)),
        Err(Or::Memory) => Err(Or::Memory),
    }
}
