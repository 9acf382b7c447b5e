//! The found modules, and after them the services, as the nodes of one graph.
ghost use Rattle.std.specs.Prelude.{◌≡◌, ◌+◌, ◌<◌, Some, length, IfOk, IfSome, OnOk};
ghost use Rattle.jm_bind.specs.Binding.{ProvidesService, UsesService};
ghost use Rattle.jm_bind.specs.Nodes.{Below, HasNode, IsDrawn, IsGraphOfAll};
ghost use Rattle.jm_closure.specs.Cycles.{IsGraphOf};
ghost use Rattle.jm_closure.specs.Places.{place_in};

use jm_bytes::NoMemory;
use jm_closure::{Candidate, Graph, Places};
use std::alloc::Global;

/// The node of a service; one more where it has none yet. One that has the name of the last service
/// isn't looked up.
fn node_of(
    alloc: Global,
    services: &mut Places,
    graph: &mut Graph,
    last: Option<(&[u8], usize)>,
    service: &[u8],
) -> Result<usize, NoMemory>
    requires { IfSome last (λ last. place_in services.old last.0.now ≡ Some last.1) }
    ensures node { IfOk result (λ node. place_in services.new service.now ≡ Some node) }
    ensures has { OnOk result
        (HasNode services.old graph.old services.new graph.new service.now) }
{
    if let Some((name, node)) = last
        && name == service
    {
        return Ok(node);
    }
    if let Some(node) = services.get(service) {
        return Ok(node);
    }
    let node = graph.len();
    services.put(alloc, service, node)?;
    graph.push(Vec::new(alloc))?;
    Ok(node)
}

/// Adds an edge from a module to each service that it uses.
fn add_uses(
    alloc: Global,
    services: &mut Places,
    graph: &mut Graph,
    found: &[Candidate],
    place: usize,
) -> Result<(), NoMemory>
    requires place { place < length found.now }
    requires drawn { IsDrawn found.now (Below place (UsesService found.now))
        (Below place (ProvidesService found.now)) services.old graph.old }
    ensures { OnOk result (IsDrawn found.now (Below (place + 1) (UsesService found.now))
        (Below place (ProvidesService found.now)) services.new graph.new) }
{
    let mut last = None;
    for service in found[place].descriptor.uses.as_slice() {
        let service = service.as_slice();
        let node = node_of(alloc, services, graph, last, service)?;
        graph.add(place, node)?;
        last = Some((service, node));
    }
    Ok(())
}

/// Adds an edge to a module from each service that it provides.
fn add_provides(
    alloc: Global,
    services: &mut Places,
    graph: &mut Graph,
    found: &[Candidate],
    place: usize,
) -> Result<(), NoMemory>
    requires place { place < length found.now }
    requires drawn { IsDrawn found.now (Below (place + 1) (UsesService found.now))
        (Below place (ProvidesService found.now)) services.old graph.old }
    ensures { OnOk result (IsDrawn found.now (Below (place + 1) (UsesService found.now))
        (Below (place + 1) (ProvidesService found.now)) services.new graph.new) }
{
    let mut last = None;
    for provided in found[place].descriptor.provides.as_slice() {
        let service = provided.service.as_slice();
        let node = node_of(alloc, services, graph, last, service)?;
        graph.add(node, place)?;
        last = Some((service, node));
    }
    Ok(())
}

/// A graph with the same edges.
fn copy_of(alloc: Global, graph: &Graph) -> Result<Graph, NoMemory>
    ensures { IfOk result (λ copy. copy ≡ graph.now) }
{
    let mut copy = Graph::new(alloc, 0)?;
    for node in 0..graph.len() {
        copy.push(Vec::from_slice(alloc, graph.ends(node))?)?;
    }
    Ok(copy)
}

/// The graph of the found modules and the services: a module leads to what it requires without
/// `static` and to the services that it uses, and a service leads to the modules that provide it.
pub fn graph_of_all(alloc: Global, found: &[Candidate], required: &Graph) -> Result<Graph, NoMemory>
    requires { IsGraphOf found.now required.now }
    ensures { IfOk result (IsGraphOfAll found.now) }
{
    let mut services = Places::new(alloc);
    let mut graph = copy_of(alloc, required)?;
    for place in 0..found.len() {
        add_uses(alloc, &mut services, &mut graph, found, place)?;
        add_provides(alloc, &mut services, &mut graph, found, place)?;
    }
    Ok(graph)
}
