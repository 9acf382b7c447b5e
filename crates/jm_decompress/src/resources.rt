//! The resources of an image as its index tells them, and what it refuses of them.
ghost use Rattle.std.specs.Prelude.{◌≡◌, ◌++◌, ◌^◌, ◌-◌, ℕ, List, All, IfOk, OnOk, Ok, None};
ghost use Rattle.std.specs.Prelude.{map, min};
ghost use Rattle.jm_form.specs.Head.{IsFileOf};
ghost use Rattle.jm_names.specs.NameFaults.{IsSound};
ghost use Rattle.jm_reader.specs.Listing.{handed};
ghost use Rattle.jm_reader.specs.Walk.{IsLater};
ghost use Rattle.jm_decompress.specs.Decompressed.{index_refusal, stored_resources, total_size};
ghost use Rattle.jm_decompress.specs.Steps.{LiesIn, placed_of, resource_alone};

use jm_bytes::{List, Meter, NoMemory, Text};
use jm_filed::PlacedName;
use jm_form::Row;
use jm_names::HasName;
use jm_reader::{Listed, list_stored};
use jm_texts::{Refusal, first_bad_name};
use jm_valid::StoredIndex;
use std::alloc::Global;
use std::cmp::Ordering;
use std::sync::ledger::Ledger;

/// How many bytes the contents of an image's resources may have, 1 GiB.
const CONTENT_LIMIT: u64 = 1_073_741_824;

/// A resource of an image as its index tells it.
#[derive(Debug, Drop)]
pub struct StoredResource {
    /// The name.
    pub name: Text,
    /// The location row as it is spelled.
    pub row: Row,
}

impl HasName for StoredResource {
    ghost use Rattle.jm_decompress.specs.Decompressed.{named};

    ghost pair = { named };

    fn name(&self) -> &[u8] {
        self.name.as_slice()
    }

    fn order(&self, other: &StoredResource) -> Ordering {
        self.name.as_slice().cmp(other.name.as_slice())
    }
}

/// Puts an entry at the end, if it is a resource.
fn put_resource(
    alloc: Global,
    resources: &mut List<StoredResource>,
    entry: &Listed,
) -> Result<(), NoMemory>
    ensures { OnOk result (resources.new ≡ resources.old ++ resource_alone (handed entry.now)) }
{
    if entry.name.is_node() {
        return Ok(());
    }
    resources.push(StoredResource {
        name: entry.name.to_text(alloc)?,
        row: entry.row,
    })
}

/// The resources of an image by rising slot.
pub(crate) fn resources_of<R: Ledger>(
    alloc: Global,
    index: &StoredIndex,
    reads: &mut Meter<R>,
) -> Result<List<StoredResource>, NoMemory>
    requires { reads.old.bytes ≡ index.now.bytes }
    ensures told { (b : List ℕ) → IsFileOf index.now.bytes index.now.length b
        → IfOk result (λ resources. resources ≡ stored_resources b) }
    ensures lie { IfOk result (All (LiesIn index.now)) }
    ensures reads { IsLater reads.old reads.new }
{
    let mut entries = list_stored(index);
    let mut resources = List::new(alloc);
    while let Some(entry) = entries.step(reads) {
        put_resource(alloc, &mut resources, &entry)?;
    }
    Ok(resources)
}

/// The names of resources, with where their contents stand and how many bytes these have.
pub(crate) fn placed_names(
    alloc: Global,
    resources: &[StoredResource],
) -> Result<List<PlacedName>, NoMemory>
    ensures { IfOk result (λ names. names ≡ map placed_of resources.now) }
{
    let mut names = List::new(alloc);
    for resource in resources {
        names.push(PlacedName {
            offset: resource.row.offset,
            size: resource.row.size,
            name: Text::copy_of(alloc, resource.name.as_slice())?,
        })?;
    }
    Ok(names)
}

/// How many bytes the contents of resources have, by their rows, at most 2^64 - 1.
fn total_size(resources: &[StoredResource]) -> u64
    ensures { result ≡ min (total_size resources.now) (2 ^ 64 - 1) }
{
    let mut total: u64 = 0;
    for resource in resources {
        total = total.saturating_add(resource.row.size);
    }
    total
}

/// What the index alone refuses of resources in their order.
pub(crate) fn index_refusal(
    alloc: Global,
    resources: &[StoredResource],
) -> Result<Option<Refusal>, NoMemory>
    ensures refusal { IfOk result (λ refusal. refusal ≡ index_refusal resources.now) }
    ensures sound { result ≡ Ok None → All (λ r. IsSound r.name) resources.now }
{
    if let Some(refusal) = first_bad_name(alloc, resources)? {
        return Ok(Some(refusal));
    }
    let total = total_size(resources);
    if total > CONTENT_LIMIT {
        return Ok(Some(Refusal::TooLarge(total)));
    }
    Ok(None)
}
