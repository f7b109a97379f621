//! How many edges lead from each node to one of them.

ghost use Rattle.std.specs.Prelude.{◌≡◌, ◌<◌, ◌^◌, ℕ, length, IfOk, All};
ghost use Rattle.digraph.specs.code.Adjacency.{lists_of, comes};
ghost use Rattle.digraph.specs.Adjacency.{neighbours};
ghost use Rattle.digraph.specs.code.Distances.{AreDistances};

use crate::search::search;
use std::alloc::Global;
use values::Memory;

/// The least number of edges from each node to one of them, where there is a walk.
pub fn distances_to(
    alloc: Global,
    predecessors: &[Vec<u32>],
    end: u32,
) -> Result<Vec<Option<u32>>, Memory>
    requires few { length predecessors.now < 2 ^ 32 }
    requires end { end < length predecessors.now }
    requires in_range { (k : ℕ)
        → All (λ n. n < length predecessors.now) (neighbours (lists_of predecessors.now) k) }
    ensures long { IfOk result (λ table. length table.items ≡ length predecessors.now) }
    ensures distances { IfOk result
        (λ table. AreDistances (comes (lists_of predecessors.now)) end table.items) }
{
    let table = search(alloc, predecessors, end)?;
    Ok(table)
}
