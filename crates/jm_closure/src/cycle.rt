//! Nodes that lead to themselves, in time linear in the nodes and edges.
ghost use Rattle.std.specs.Prelude.{◌≡◌, ◌<◌, ◌↔◌, All, length, IfOk, IsTrue, OnOk};
ghost use Rattle.std.specs.Bool.{OnFalse};
ghost use Rattle.jm_closure.specs.Cycles.{IsFirstOf, LeavesRound, Turns};
ghost use Rattle.jm_closure.specs.Graphs.{EndsWithin, IsMarked, IsReversed, OnCycle, RoundsRise};
ghost use Rattle.jm_closure.specs.Graphs.{RoundsSoFar};

use crate::graph::Graph;
use crate::reach::{reach, reached};
use crate::walk::last_left_first;
use jm_bytes::NoMemory;
use std::alloc::Global;

/// Adds a node's edges the other way round to a graph.
fn turn(back: &mut Graph, node: usize, ends: &[usize]) -> Result<(), NoMemory>
    requires node { node < length back.old }
    requires ends { All (λ end. end < length back.old) ends.now }
    ensures { OnOk result (Turns back.old back.new node ends.now) }
{
    for end in ends {
        back.add(*end, node)?;
    }
    Ok(())
}

/// The graph with its edges the other way round.
fn reversed(alloc: Global, graph: &Graph) -> Result<Graph, NoMemory>
    requires { EndsWithin graph.now }
    ensures { IfOk result (IsReversed graph.now) }
{
    let mut back = Graph::new(alloc, graph.len())?;
    for node in 0..graph.len() {
        turn(&mut back, node, graph.ends(node))?;
    }
    Ok(back)
}

/// The rounds in which the nodes of a graph are reached from each node of a list in turn.
fn rounds_from(alloc: Global, graph: &Graph, order: &[usize]) -> Result<Vec<usize>, NoMemory>
    requires { EndsWithin graph.now }
    ensures { IfOk result (λ rounds. RoundsSoFar graph.now (length order.now) rounds.items) }
{
    let mut rounds = Vec::from_elem(alloc, 0, graph.len())?;
    for (earlier, node) in order.iter().enumerate() {
        if *node < graph.len() {
            reach(alloc, graph, &mut rounds, earlier + 1, &[*node])?;
        }
    }
    Ok(rounds)
}

/// An edge of a node leads to a node of its own round.
fn stays_in_round(graph: &Graph, rounds: &[usize], node: usize) -> bool
    requires graph { EndsWithin graph.now }
    requires rounds { length rounds.now ≡ length graph.now }
    requires node { node < length graph.now }
    ensures { OnFalse result (LeavesRound graph.now rounds.now node) }
{
    for end in graph.ends(node) {
        if rounds[*end] == rounds[node] {
            return true;
        }
    }
    false
}

/// A node leads to itself.
fn is_on_cycle(
    alloc: Global,
    graph: &Graph,
    rounds: &[usize],
    node: usize,
) -> Result<bool, NoMemory>
    requires graph { EndsWithin graph.now }
    requires rounds { length rounds.now ≡ length graph.now }
    requires rise { RoundsRise graph.now rounds.now }
    requires node { node < length graph.now }
    ensures { IfOk result (λ is. IsTrue is ↔ OnCycle graph.now node) }
{
    if !stays_in_round(graph, rounds, node) {
        return Ok(false);
    }
    let flags = reached(alloc, graph, graph.ends(node))?;
    Ok(flags[node])
}

/// The first node of a list that is marked and leads to itself.
pub fn first_on_cycle(
    alloc: Global,
    graph: &Graph,
    order: &[usize],
    marked: &[bool],
) -> Result<Option<usize>, NoMemory>
    requires graph { EndsWithin graph.now }
    requires order { All (λ i. i < length graph.now) order.now }
    requires marked { length marked.now ≡ length graph.now }
    ensures { IfOk result (IsFirstOf (λ i. IsMarked marked.now i × OnCycle graph.now i) order.now) }
{
    // No edge leads to an earlier round, so the nodes of a cycle have one; and no other nodes share
    // one, since the rounds go against the edges from the nodes that a walk left last.
    let left = last_left_first(alloc, graph)?;
    let back = reversed(alloc, graph)?;
    let rounds = rounds_from(alloc, &back, left.as_slice())?;
    for node in order {
        if marked[*node] && is_on_cycle(alloc, graph, rounds.as_slice(), *node)? {
            return Ok(Some(*node));
        }
    }
    Ok(None)
}
