//! What the index of an image tells of its resources: which they are, and in which order their
//! contents stand.
ghost use Rattle.std.specs.Prelude.{◌≡◌, ℕ, List, All, IfOk};
ghost use Rattle.jm_filed.specs.FileOrder.{file_order};
ghost use Rattle.jm_form.specs.Head.{IsFileOf};
ghost use Rattle.jm_reader.specs.Walk.{IsLater};
ghost use Rattle.jm_decompress.specs.Decompressed.{AreByName};
ghost use Rattle.jm_decompress.specs.Steps.{Judges, LiesIn};

use crate::resources::{StoredResource, index_refusal, placed_names, resources_of};
use jm_bytes::{List, Meter, NoMemory, Text};
use jm_filed::names_by_place;
use jm_link::LinkStop;
use jm_names::sorted_by_name;
use jm_valid::StoredIndex;
use std::alloc::Global;
use std::sync::ledger::Ledger;

/// The resources of an image.
#[derive(Drop)]
pub struct ToldResources {
    /// By rising name.
    pub resources: List<StoredResource>,
    /// Their names in the order of their contents.
    pub order: List<Text>,
}

/// The resources of an image as its index tells them.
fn told_resources<R: Ledger>(
    alloc: Global,
    index: &StoredIndex,
    reads: &mut Meter<R>,
) -> Result<ToldResources, NoMemory>
    requires { reads.old.bytes ≡ index.now.bytes }
    ensures named { (b : List ℕ) → IsFileOf index.now.bytes index.now.length b
        → IfOk result (λ told. AreByName b told.resources) }
    ensures order { (b : List ℕ) → IsFileOf index.now.bytes index.now.length b
        → IfOk result (λ told. told.order ≡ file_order b) }
    ensures lie { IfOk result (λ told. All (LiesIn index.now) told.resources) }
    ensures reads { IsLater reads.old reads.new }
{
    let by_slot = resources_of(alloc, index, reads)?;
    let placed = placed_names(alloc, by_slot.as_slice())?;
    let order = names_by_place(alloc, placed)?;
    Ok(ToldResources {
        resources: sorted_by_name(by_slot),
        order,
    })
}

/// The resources of an image, if its index alone shows nothing that is refused.
pub(crate) fn judged_resources<R: Ledger>(
    alloc: Global,
    index: &StoredIndex,
    reads: &mut Meter<R>,
) -> Result<ToldResources, LinkStop>
    requires { reads.old.bytes ≡ index.now.bytes }
    ensures judges { (b : List ℕ) → IsFileOf index.now.bytes index.now.length b
        → Judges b result }
    ensures lie { IfOk result (λ told. All (LiesIn index.now) told.resources) }
    ensures reads { IsLater reads.old reads.new }
{
    let told = told_resources(alloc, index, reads)?;
    match index_refusal(alloc, told.resources.as_slice())? {
        Some(refusal) => Err(LinkStop::Refused(refusal)),
        None => Ok(told),
    }
}
