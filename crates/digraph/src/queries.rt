//! What a directed graph is asked.

ghost use Rattle.std.specs.Prelude.{◌≡◌, ◌<◌, ◌==◌, ◌&&◌, ◌^◌, ℕ, length, IfOk, MatchOption, All};
ghost use Rattle.std.specs.List.{list_any};
ghost use Rattle.digraph.specs.code.Adjacency.{lists_of};
ghost use Rattle.digraph.specs.Adjacency.{neighbours, has_node, AreNeighbours};
ghost use Rattle.digraph.specs.Cycle.{Returns};
ghost use Rattle.digraph.specs.code.Cycle.{IsNamedCycle};
ghost use Rattle.digraph.specs.code.Digraph.{count, edge};
ghost use Rattle.digraph.specs.code.Distances.{AreDistances};
ghost use Rattle.digraph.specs.Order.{IsTopologicalOrder};

use crate::adjacency::{add_pairs, empty_lists, transposed};
use crate::cycle::named_cycle;
use crate::digraph::Digraph;
use crate::distances::distances_to;
use crate::order::topological_order;
use std::alloc::Global;
use values::Memory;

impl Digraph {
    /// The graph in which an edge leads to each node from those in its list, in any order, each
    /// once or more.
    pub fn new(alloc: Global, predecessors: &[Vec<u32>]) -> Result<Digraph, Memory>
        requires few { length predecessors.now < 2 ^ 32 }
        requires in_range { (k : ℕ)
            → All (λ n. n < length predecessors.now) (neighbours (lists_of predecessors.now) k) }
        ensures count { IfOk result (λ g. count g ≡ length predecessors.now) }
        ensures edges { IfOk result
            (λ g. (a b : ℕ) → edge g a b ≡ has_node a (neighbours (lists_of predecessors.now) b)) }
    {
        let successors = transposed(alloc, predecessors)?;
        let predecessors = transposed(alloc, &successors)?;
        Ok(Digraph {
            predecessors,
            successors,
        })
    }

    /// The graph of so many nodes in which an edge leads from the first to the second node of each
    /// pair.
    pub fn from_edges(alloc: Global, nodes: usize, edges: &[(u32, u32)]) -> Result<Digraph, Memory>
        requires few { nodes < 2 ^ 32 }
        requires in_range { All (λ p. (p.0 < nodes) × (p.1 < nodes)) edges.now }
        ensures count { IfOk result (λ g. count g ≡ nodes) }
        ensures edges { IfOk result
            (λ g. (a b : ℕ)
            → edge g a b ≡ list_any (λ (p : ℕ × ℕ). p.0 == a && p.1 == b) edges.now) }
    {
        let mut predecessors = empty_lists(alloc, nodes)?;
        add_pairs(&mut predecessors, edges)?;
        let graph = Digraph::new(alloc, &predecessors)?;
        Ok(graph)
    }

    /// For each node those from which an edge leads to it.
    pub fn predecessors(&self) -> &[Vec<u32>]
        ensures { AreNeighbours (λ a b. edge self.now b a) (count self.now) (lists_of result.now) }
    {
        &self.predecessors
    }

    /// For each node those to which an edge leads from it.
    pub fn successors(&self) -> &[Vec<u32>]
        ensures { AreNeighbours (edge self.now) (count self.now) (lists_of result.now) }
    {
        &self.successors
    }

    /// An order in which each node comes after its predecessors, by Kahn's algorithm. There is none
    /// exactly where a node returns to itself.
    pub fn topological_order(&self, alloc: Global) -> Result<Option<Vec<u32>>, Memory>
        ensures order { IfOk result
            (λ o. MatchOption o ((a : ℕ) × Returns (edge self.now) a)
            (λ ns. IsTopologicalOrder (edge self.now) (count self.now) ns.items)) }
        ensures acyclic { IfOk result
            (λ o. MatchOption o (Unit {0}) (λ _. (a : ℕ) → Returns (edge self.now) a → ⊥)) }
    {
        let order = topological_order(alloc, &self.predecessors, &self.successors)?;
        Ok(order)
    }

    /// The cycle from the least node that returns to itself: the shortest way back, and among these
    /// the one with the least numbers, the first first.
    pub fn named_cycle(&self, alloc: Global) -> Result<Option<Vec<u32>>, Memory>
        ensures cycle { IfOk result
            (λ o. MatchOption o ((a : ℕ) → Returns (edge self.now) a → ⊥)
            (λ ns. IsNamedCycle (edge self.now) ns.items)) }
        ensures in_range { IfOk result
            (λ o. MatchOption o (Unit {0}) (λ ns. All (λ n. n < count self.now) ns.items)) }
    {
        let cycle = named_cycle(alloc, &self.predecessors, &self.successors)?;
        Ok(cycle)
    }

    /// The least number of edges from each node to one of them, where there is a walk.
    pub fn distances_to(&self, alloc: Global, end: u32) -> Result<Vec<Option<u32>>, Memory>
        requires { end < count self.now }
        ensures long { IfOk result (λ table. length table.items ≡ count self.now) }
        ensures distances { IfOk result (λ table. AreDistances (edge self.now) end table.items) }
    {
        let table = distances_to(alloc, &self.predecessors, end)?;
        Ok(table)
    }
}
