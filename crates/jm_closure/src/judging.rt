//! What a choice of modules is refused for, and their places.
ghost use Rattle.std.specs.Prelude.{◌≡◌, ◌<◌, [], All, length, filter, slice_index_or, false, IfOk};
ghost use Rattle.jm_bytes.specs.Results.{IfAnswered};
ghost use Rattle.jm_closure.specs.Cycles.{IsGraphOf};
ghost use Rattle.jm_closure.specs.Graphs.{IsMarked};
ghost use Rattle.jm_closure.specs.Names.{Indexes, NamesDiffer};
ghost use Rattle.jm_closure.specs.Refusals.{Closes};

use crate::candidate::Candidate;
use crate::cycle::first_on_cycle;
use crate::fault::CloseFault;
use crate::graph::Graph;
use crate::missing::lack;
use crate::places::Places;
use crate::split::split;
use jm_bytes::{List, NoMemory, Or, Text};
use std::alloc::Global;

/// The places of some that are marked, in their order.
fn marked_in(alloc: Global, order: &[usize], marked: &[bool]) -> Result<List<usize>, NoMemory>
    requires { All (λ i. i < length marked.now) order.now }
    ensures { IfOk result
        (λ places. places ≡ filter (λ i. slice_index_or marked.now i false) order.now) }
{
    let mut places = Vec::new(alloc);
    for place in order {
        if marked[*place] {
            places.push(*place)?;
        }
    }
    Ok(List::from_vec(places))
}

/// The places of the chosen modules, rising by name, or the first fault that holds of them.
///
/// # Errors
///
/// All of [`CloseFault`] but `NoRoot`.
pub fn judge(
    alloc: Global,
    found: &[Candidate],
    names: &Places,
    graph: &Graph,
    chosen: &[bool],
) -> Result<List<usize>, Or<CloseFault>>
    requires differ { NamesDiffer found.now }
    requires names { Indexes found.now names.now }
    requires graph { IsGraphOf found.now graph.now }
    requires chosen { length chosen.now ≡ length found.now }
    ensures { IfAnswered (Closes found.now [] (IsMarked chosen.now)) result }
{
    if let Some((name, by)) = lack(names, found, chosen) {
        let name = Text::copy_of(alloc, name)?;
        let by = Text::copy_of(alloc, by)?;
        return Err(Or::Fault(CloseFault::Missing { name, by }));
    }
    let order = names.rising(alloc)?;
    if let Some(place) = first_on_cycle(alloc, graph, order.as_slice(), chosen)? {
        let name = Text::copy_of(alloc, found[place].descriptor.name.as_slice())?;
        return Err(Or::Fault(CloseFault::Cycle(name)));
    }
    if let Some((package, first, second)) = split(alloc, found, chosen)? {
        let package = Text::copy_of(alloc, package)?;
        let first = Text::copy_of(alloc, first)?;
        let second = Text::copy_of(alloc, second)?;
        return Err(Or::Fault(CloseFault::SplitPackage {
            package,
            first,
            second,
        }));
    }
    Ok(marked_in(alloc, order.as_slice(), chosen)?)
}
