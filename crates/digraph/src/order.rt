//! A topological order.

ghost use Rattle.std.specs.Prelude.{◌≡◌, ◌<◌, ◌^◌, ℕ, length, IfOk, MatchOption};
ghost use Rattle.digraph.specs.code.Adjacency.{lists_of, leads, AreLinked};
ghost use Rattle.digraph.specs.Cycle.{Returns};
ghost use Rattle.digraph.specs.Order.{IsTopologicalOrder};

use crate::kahn::place;
use std::alloc::Global;
use values::Memory;

/// An order in which each node comes after its predecessors, by Kahn's algorithm. There is none
/// exactly where a node returns to itself.
pub fn topological_order(
    alloc: Global,
    predecessors: &[Vec<u32>],
    successors: &[Vec<u32>],
) -> Result<Option<Vec<u32>>, Memory>
    requires few { length predecessors.now < 2 ^ 32 }
    requires linked { AreLinked (lists_of predecessors.now) (lists_of successors.now) }
    ensures order { IfOk result
        (λ o. MatchOption o ((a : ℕ) × Returns (leads (lists_of successors.now)) a)
        (λ ns. IsTopologicalOrder
        (leads (lists_of successors.now)) (length predecessors.now) ns.items)) }
    ensures acyclic { IfOk result
        (λ o. MatchOption o (Unit {0})
        (λ _. (a : ℕ) → Returns (leads (lists_of successors.now)) a → ⊥)) }
{
    let placement = place(alloc, predecessors, successors)?;
    if placement.ordered.len() == predecessors.len() {
        Ok(Some(placement.ordered))
    } else {
        Ok(None)
    }
}
