//! Ranks of nodes that don't fall along an edge. Where those of two nodes differ, no cycle has
//! both.

ghost use Rattle.std.specs.Prelude.{◌≡◌, ◌<◌, ◌≤◌, ◌^◌, ℕ, Some, length, IfOk, OnOk, All};
ghost use Rattle.digraph.specs.code.Adjacency.{lists_of, comes, leads, AreLinked};
ghost use Rattle.digraph.specs.Adjacency.{neighbours};
ghost use Rattle.digraph.specs.code.Distances.{distance_at};
ghost use Rattle.digraph.specs.code.Ranks.{AreRanks};

use crate::finishing::finishing_order;
use crate::search::{blank, mark, spread};
use std::alloc::Global;
use values::Memory;

/// Gives this rank to a node and to those from which a walk leads to it, where they have none.
fn rank_from(
    alloc: Global,
    predecessors: &[Vec<u32>],
    table: &mut Vec<Option<u32>>,
    root: u32,
    rank: u32,
) -> Result<(), Memory>
    requires long { length table.old.items ≡ length predecessors.now }
    requires root { root < length predecessors.now }
    requires in_range { (k : ℕ)
        → All (λ n. n < length predecessors.now) (neighbours (lists_of predecessors.now) k) }
    requires ranks { AreRanks (comes (lists_of predecessors.now)) table.old.items }
    requires most { (c x : ℕ) → distance_at table.old.items c ≡ Some x → x ≤ rank }
    ensures long { length table.new.items ≡ length table.old.items }
    ensures ranks { OnOk result (AreRanks (comes (lists_of predecessors.now)) table.new.items) }
    ensures most { OnOk result ((c x : ℕ) → distance_at table.new.items c ≡ Some x → x ≤ rank) }
{
    let mut frontier = Vec::new(alloc);
    mark(table, &mut frontier, &[root], rank)?;
    while !frontier.is_empty() {
        frontier = spread(alloc, predecessors, table, &frontier, rank)?;
    }
    Ok(())
}

/// Ranks by searches against the edges, from the node that a depth-first search left last to the
/// first: so two nodes have the same rank only where a walk leads from each to the other.
pub fn ranks(
    alloc: Global,
    predecessors: &[Vec<u32>],
    successors: &[Vec<u32>],
) -> Result<Vec<Option<u32>>, Memory>
    requires few { length predecessors.now < 2 ^ 32 }
    requires linked { AreLinked (lists_of predecessors.now) (lists_of successors.now) }
    ensures long { IfOk result (λ table. length table.items ≡ length predecessors.now) }
    ensures ranks { IfOk result (λ table. AreRanks (leads (lists_of successors.now)) table.items) }
{
    let mut ordered = finishing_order(alloc, successors)?;
    let mut table = blank(alloc, predecessors.len())?;
    for rank in 0..predecessors.len() as u32 {
        if let Some(root) = ordered.pop() {
            rank_from(alloc, predecessors, &mut table, root, rank)?;
        }
    }
    Ok(table)
}
