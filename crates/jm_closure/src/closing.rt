//! The closure of root modules.
ghost use Rattle.jm_bytes.specs.Results.{IfAnswered};
ghost use Rattle.jm_closure.specs.Modules.{Reached};
ghost use Rattle.jm_closure.specs.Names.{NamesDiffer};
ghost use Rattle.jm_closure.specs.Refusals.{Closes};

use crate::candidate::Candidate;
use crate::fault::CloseFault;
use crate::judging::judge;
use crate::missing::least_lost_root;
use crate::names::{edges_of, names_of, places_among};
use crate::reach::reached;
use jm_bytes::{List, Or, Text};
use std::alloc::Global;

/// The places of the modules that are reached from the roots by requires without `static`, rising
/// by name. Time n log n in the modules, requires and packages together.
///
/// # Errors
///
/// The first in the order of [`CloseFault`], with the least names that show it.
pub fn close(
    alloc: Global,
    found: &[Candidate],
    roots: &[Text],
) -> Result<List<usize>, Or<CloseFault>>
    requires { NamesDiffer found.now }
    ensures { IfAnswered (Closes found.now roots.now (Reached found.now roots.now)) result }
{
    let names = names_of(alloc, found)?;
    if let Some(name) = least_lost_root(&names, roots) {
        return Err(Or::Fault(CloseFault::NoRoot(Text::copy_of(alloc, name)?)));
    }
    let graph = edges_of(alloc, &names, found)?;
    let starts = places_among(alloc, &names, roots)?;
    let chosen = reached(alloc, &graph, starts.as_slice())?;
    judge(alloc, found, &names, &graph, chosen.as_slice())
}
