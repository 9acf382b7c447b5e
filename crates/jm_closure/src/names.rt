//! The found modules by their names, and what they require by place.
ghost use Rattle.std.specs.Prelude.{◌≡◌, ◌↔◌, IfOk, IsTrue};
ghost use Rattle.jm_closure.specs.Modules.{required_by};
ghost use Rattle.jm_closure.specs.Names.{edges_of, places_among, Indexes, NamesDiffer};

use crate::candidate::Candidate;
use crate::graph::Graph;
use crate::places::Places;
use jm_bytes::{NoMemory, Text};
use std::alloc::Global;

/// No two of the found modules have one name, as [`close`](crate::close) requires.
pub fn names_differ(alloc: Global, found: &[Candidate]) -> Result<bool, NoMemory>
    ensures { IfOk result (λ differ. IsTrue differ ↔ NamesDiffer found.now) }
{
    let mut names = Places::new(alloc);
    for (place, candidate) in found.iter().enumerate() {
        let name = candidate.descriptor.name.as_slice();
        match names.get(name) {
            Some(_) => return Ok(false),
            None => names.put(alloc, name, place)?,
        }
    }
    Ok(true)
}

/// The places of the found modules by their names.
pub fn names_of(alloc: Global, found: &[Candidate]) -> Result<Places, NoMemory>
    requires { NamesDiffer found.now }
    ensures { IfOk result (Indexes found.now) }
{
    let mut names = Places::new(alloc);
    for (place, candidate) in found.iter().enumerate() {
        names.put(alloc, candidate.descriptor.name.as_slice(), place)?;
    }
    Ok(names)
}

/// The places of some names, without those that have none.
pub fn places_among(alloc: Global, names: &Places, texts: &[Text]) -> Result<Vec<usize>, NoMemory>
    ensures { IfOk result (λ places. places.items ≡ places_among names.now texts.now) }
{
    let mut places = Vec::new(alloc);
    for text in texts {
        if let Some(place) = names.get(text.as_slice()) {
            places.push(place)?;
        }
    }
    Ok(places)
}

/// The places of the modules that a module requires without `static`.
fn required(alloc: Global, names: &Places, candidate: &Candidate) -> Result<Vec<usize>, NoMemory>
    ensures { IfOk result
        (λ places. places.items ≡ places_among names.now (required_by candidate.now)) }
{
    let mut places = Vec::new(alloc);
    for need in candidate.descriptor.needs.as_slice() {
        if need.is_static() {
            continue;
        }
        if let Some(place) = names.get(need.name.as_slice()) {
            places.push(place)?;
        }
    }
    Ok(places)
}

/// The found modules, each with edges to those that it requires without `static`.
pub fn edges_of(alloc: Global, names: &Places, found: &[Candidate]) -> Result<Graph, NoMemory>
    ensures { IfOk result (λ graph. graph ≡ edges_of names.now found.now) }
{
    let mut graph = Graph::new(alloc, 0)?;
    for candidate in found {
        graph.push(required(alloc, names, candidate)?)?;
    }
    Ok(graph)
}
