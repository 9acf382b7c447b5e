//! The order in which a walk through a graph, depth first, leaves its nodes.
ghost use Rattle.std.specs.Prelude.{◌<◌};

use crate::graph::Graph;
use jm_bytes::NoMemory;
use std::alloc::Global;

/// What a walk does next.
#[derive(Clone, Copy)]
enum Step {
    Enter(usize),
    Leave(usize),
}

/// A walk: the nodes that it entered, what is still to be done, the last first, and the nodes that
/// it left.
#[derive(Drop)]
struct Walk {
    entered: Vec<bool>,
    steps: Vec<Step>,
    left: Vec<usize>,
}

impl Walk {
    /// Enters a node, unless it was entered: its ends are entered next, and then it is left.
    fn enter(&mut self, graph: &Graph, node: usize) -> Result<(), NoMemory> {
        if node >= graph.len() || node >= self.entered.len() || self.entered[node] {
            return Ok(());
        }
        self.entered[node] = true;
        self.steps.push(Step::Leave(node))?;
        for end in graph.ends(node) {
            self.steps.push(Step::Enter(*end))?;
        }
        Ok(())
    }
}

/// The nodes that a walk leaves, the last one first, so each before those to which it leads,
/// cycles apart. No clause speaks of this order: with any other one a cycle is found as well, but
/// not in linear time.
pub fn last_left_first(alloc: Global, graph: &Graph) -> Result<Vec<usize>, NoMemory> {
    let mut walk = Walk {
        entered: Vec::from_elem(alloc, false, graph.len())?,
        steps: (0..graph.len())
            .map(|node| Step::Enter(node))
            .collect(alloc)?,
        left: Vec::new(alloc),
    };
    for _ in 0..most_steps(graph) {
        match walk.steps.pop() {
            Some(Step::Enter(node)) => walk.enter(graph, node)?,
            Some(Step::Leave(node)) => walk.left.push(node)?,
            None => break,
        }
    }
    let Walk { mut left, .. } = walk;
    left.reverse();
    Ok(left)
}

/// The most steps that a walk takes: each node is to be entered at the beginning and from each edge
/// to it, and is left once.
fn most_steps(graph: &Graph) -> usize {
    let mut steps = graph.len().saturating_mul(2);
    for node in 0..graph.len() {
        steps = steps.saturating_add(graph.ends(node).len());
    }
    steps
}
