//! The contents of resources, each had of its stored bytes, on all jobs.
ghost use Rattle.std.specs.Prelude.{◌≢◌, ◌≡◌, ℕ, List, AllPairs, map};
ghost use Rattle.jm_link.specs.Steps.{stop_of_fault};
ghost use Rattle.jm_texts.specs.declared.refusal.Refusal.TheVariants.{Packed};
ghost use Rattle.jm_decompress.specs.Steps.{AreHeld, AreTextsOf, ContentGives, ContentsGive};
ghost use Rattle.jm_decompress.specs.Steps.{IsHeld, NewAtEach, PutsAll};

use crate::held::HeldResource;
use jm_bytes::{List, Or, Order, Text};
use jm_halves::{Gate, Workers};
use jm_link::LinkStop;
use jm_packed::{PackedFault, content_of};
use jm_pool::Pool;
use jm_texts::Refusal;
use std::alloc::Global;
use std::thread::Threads;

/// Why the content of a resource of this name can't be had.
fn unpacked(name: Text, error: Or<PackedFault>) -> LinkStop
    ensures { result ≡ stop_of_fault (λ fault. Packed name fault) error }
{
    match error {
        Or::Fault(fault) => LinkStop::Refused(Refusal::Packed { name, fault }),
        Or::Memory => LinkStop::Memory,
    }
}

/// The name of a resource and its content, by the byte order and the strings of its image.
fn named_content(
    alloc: Global,
    order: Order,
    strings: &[u8],
    held: &HeldResource,
) -> Result<(Text, Text), LinkStop>
    ensures { (b : List ℕ) → AreTextsOf b order strings.now → IsHeld b held.now
        → ContentGives b held.now.resource result }
{
    let resource = &held.resource;
    let name = Text::copy_of(alloc, resource.name.as_slice())?;
    let stored = held.stored.as_slice();
    match content_of(alloc, order, strings, &resource.row, stored) {
        Ok(content) => Ok((name, content)),
        Err(error) => Err(unpacked(name, error)),
    }
}

/// The pairs that were had, in their order; what came first instead of one decides.
fn put_contents(alloc: Global, had: List<Result<(Text, Text), LinkStop>>) -> Result<Pool, LinkStop>
    requires { NewAtEach had }
    ensures { PutsAll had result }
{
    let mut pool = Pool::new(alloc);
    for one in had.into_vec() {
        let (name, content) = one?;
        pool.push(name, content)?;
    }
    Ok(pool)
}

/// The contents of resources of an image, by its byte order and its strings, or the refusal of the
/// first whose content can't be had. No content has more bytes than its row says.
pub(crate) fn contents_of<T: Threads + Sync, G: Gate + Sync>(
    workers: &Workers<T, G>,
    order: Order,
    strings: &[u8],
    held: &[HeldResource],
) -> Result<Pool, LinkStop>
    requires differ { AllPairs (λ h k. h.resource.name ≢ k.resource.name) held.now }
    requires some { (b : List ℕ) × AreTextsOf b order strings.now × AreHeld b held.now }
    ensures { (b : List ℕ) → AreTextsOf b order strings.now → AreHeld b held.now
        → ContentsGive b (map (λ h. h.resource) held.now) result }
{
    let alloc = workers.alloc;
    let work = |one: &HeldResource| named_content(alloc, order, strings, one);
    let had = workers.map(held, &work)?;
    put_contents(alloc, had)
}
