//! What nodes lead to.
ghost use Rattle.std.specs.Prelude.{◌≡◌, ◌+◌, ◌<◌, ◌↔◌, All, length, IfOk, OnOk};
ghost use Rattle.std.specs.Prelude.{vec_len, ℕ};
ghost use Rattle.jm_closure.specs.Graphs.{marks_of, unreached, EndsWithin, IsMarked, IsRound};
ghost use Rattle.jm_closure.specs.Graphs.{LedFrom, Reaches};

use crate::graph::Graph;
use jm_bytes::NoMemory;
use std::alloc::Global;

/// Reaches, in a round, those of some nodes that weren't reached yet.
fn reach_each(
    rounds: &mut Vec<usize>,
    work: &mut Vec<usize>,
    round: usize,
    nodes: &[usize],
) -> Result<(), NoMemory>
    requires round { 0 < round }
    requires within { All (λ node. node < length rounds.old.items) nodes.now }
    ensures reaches { OnOk result
        (Reaches rounds.old.items work.old.items rounds.new.items work.new.items round nodes.now) }
    ensures measure { OnOk result (unreached rounds.new.items + vec_len work.new
        ≡ unreached rounds.old.items + vec_len work.old) }
    ensures size { OnOk result (vec_len rounds.new ≡ vec_len rounds.old) }
{
    for node in nodes {
        if rounds[*node] == 0 {
            work.push(*node)?;
            rounds[*node] = round;
        }
    }
    Ok(())
}

/// Reaches, in a round, some nodes and what they lead to over nodes that weren't reached yet.
pub fn reach(
    alloc: Global,
    graph: &Graph,
    rounds: &mut Vec<usize>,
    round: usize,
    starts: &[usize],
) -> Result<(), NoMemory>
    requires graph { EndsWithin graph.now }
    requires size { length rounds.old.items ≡ length graph.now }
    requires round { 0 < round }
    requires starts { All (λ node. node < length graph.now) starts.now }
    ensures { OnOk result (IsRound graph.now rounds.old.items starts.now round rounds.new.items) }
{
    let mut work = Vec::new(alloc);
    reach_each(rounds, &mut work, round, starts)?;
    while let Some(node) = work.pop() {
        reach_each(rounds, &mut work, round, graph.ends(node))?;
    }
    Ok(())
}

/// Which nodes are reached, in any round.
fn marks(alloc: Global, rounds: &[usize]) -> Result<Vec<bool>, NoMemory>
    ensures { IfOk result (λ flags. flags.items ≡ marks_of rounds.now) }
{
    Ok(rounds.iter().map(|round| *round != 0).collect(alloc)?)
}

/// Which nodes some nodes lead to, they themselves among these.
pub fn reached(alloc: Global, graph: &Graph, starts: &[usize]) -> Result<Vec<bool>, NoMemory>
    requires graph { EndsWithin graph.now }
    requires starts { All (λ node. node < length graph.now) starts.now }
    ensures size { IfOk result (λ flags. vec_len flags ≡ length graph.now) }
    ensures exactly { IfOk result
        (λ flags. (j : ℕ) → IsMarked flags.items j ↔ LedFrom graph.now starts.now j) }
{
    let mut rounds = Vec::from_elem(alloc, 0, graph.len())?;
    reach(alloc, graph, &mut rounds, 1, starts)?;
    marks(alloc, rounds.as_slice())
}
