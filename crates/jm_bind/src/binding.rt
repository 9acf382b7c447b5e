//! The modules that root modules bind.
ghost use Rattle.std.specs.Prelude.{◌≡◌, ◌↔◌, length, vec_len, IfOk, ℕ};
ghost use Rattle.jm_bind.specs.Binding.{Bound};
ghost use Rattle.jm_bytes.specs.Results.{IfAnswered};
ghost use Rattle.jm_closure.specs.Cycles.{IsGraphOf};
ghost use Rattle.jm_closure.specs.Graphs.{IsMarked};
ghost use Rattle.jm_closure.specs.Names.{Indexes, NamesDiffer};
ghost use Rattle.jm_closure.specs.Refusals.{Closes};

use crate::nodes::graph_of_all;
use jm_bytes::{List, NoMemory, Or, Text};
use jm_closure::{
    Candidate, CloseFault, Graph, Places, edges_of, judge, least_lost_root, names_of, places_among,
    reached,
};
use std::alloc::Global;

/// Which of the found modules are bound.
fn bound(
    alloc: Global,
    names: &Places,
    found: &[Candidate],
    required: &Graph,
    roots: &[Text],
) -> Result<Vec<bool>, NoMemory>
    requires names { Indexes found.now names.now }
    requires graph { IsGraphOf found.now required.now }
    ensures size { IfOk result (λ flags. vec_len flags ≡ length found.now) }
    ensures exactly { IfOk result
        (λ flags. (i : ℕ) → IsMarked flags.items i ↔ Bound found.now roots.now i) }
{
    let graph = graph_of_all(alloc, found, required)?;
    let starts = places_among(alloc, names, roots)?;
    let mut flags = reached(alloc, &graph, starts.as_slice())?;
    flags.truncate(found.len());
    Ok(flags)
}

/// The places of the bound modules, rising by name: the least set of found modules that has the
/// roots, with each module those that it requires without `static`, and with each module all those
/// that provide a service which it uses. Time n log n in the modules, requires, uses, provides and
/// packages together.
///
/// # Errors
///
/// The first in the order of [`CloseFault`], with the least names that show it. Uses and provides
/// make no cycle.
pub fn bind(
    alloc: Global,
    found: &[Candidate],
    roots: &[Text],
) -> Result<List<usize>, Or<CloseFault>>
    requires { NamesDiffer found.now }
    ensures { IfAnswered (Closes found.now roots.now (Bound found.now roots.now)) result }
{
    let names = names_of(alloc, found)?;
    if let Some(name) = least_lost_root(&names, roots) {
        return Err(Or::Fault(CloseFault::NoRoot(Text::copy_of(alloc, name)?)));
    }
    let required = edges_of(alloc, &names, found)?;
    let chosen = bound(alloc, &names, found, &required, roots)?;
    judge(alloc, found, &names, &required, chosen.as_slice())
}
