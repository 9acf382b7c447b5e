//! Nodes with edges between them, by their numbers.
ghost use Rattle.std.specs.Prelude.{◌≡◌, ◌<◌, ◌∷◌, ◌++◌, [], length, replicate, IfOk, OnOk, OnErr};
ghost use Rattle.jm_closure.specs.Graphs.{ends_at, with_edge};

use jm_bytes::NoMemory;
use std::alloc::Global;
use std::marker::Model;

/// Nodes by their numbers from 0, each with the nodes to which it has an edge. It is seen as the
/// list of these.
#[derive(Debug, Drop)]
pub struct Graph {
    edges: Vec<Vec<usize>>,
}

impl Model for Graph {
    ghost use Rattle.std.specs.Prelude.{ℕ, List, map};

    ghost Value = { List (List ℕ) };

    ghost view = { λ g. map (λ ends. ends.items) g.edges.items };
}

impl Graph {
    /// That many nodes without an edge.
    pub fn new(alloc: Global, nodes: usize) -> Result<Graph, NoMemory>
        ensures { IfOk result (λ graph. graph ≡ replicate nodes []) }
    {
        let mut edges = Vec::new(alloc);
        for _ in 0..nodes {
            edges.push(Vec::new(alloc))?;
        }
        Ok(Graph { edges })
    }

    /// Adds a node with the nodes to which it has an edge.
    pub fn push(&mut self, ends: Vec<usize>) -> Result<(), NoMemory>
        ensures ok { OnOk result (self.new ≡ self.old ++ ends.items ∷ []) }
        ensures err { OnErr result (self.new ≡ self.old) }
    {
        Ok(self.edges.push(ends)?)
    }

    /// How many nodes there are.
    pub fn len(&self) -> usize
        ensures { result ≡ length self.now }
    {
        self.edges.len()
    }

    /// The nodes to which a node has an edge.
    pub fn ends(&self, node: usize) -> &[usize]
        requires { node < length self.now }
        ensures { result.now ≡ ends_at self.now node }
    {
        self.edges[node].as_slice()
    }

    /// Adds an edge between two nodes.
    pub fn add(&mut self, from: usize, to: usize) -> Result<(), NoMemory>
        requires { from < length self.old }
        ensures ok { OnOk result (self.new ≡ with_edge self.old from to) }
        ensures err { OnErr result (self.new ≡ self.old) }
    {
        Ok(self.edges[from].push(to)?)
    }
}
