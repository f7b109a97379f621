//! Breadth-first search, from a node against the edges.

ghost use Rattle.std.specs.Prelude.{◌≡◌, ◌<◌, ◌≤◌, ◌^◌, ℕ, None, length, replicate, IfOk, OnOk, All};
ghost use Rattle.digraph.specs.code.Adjacency.{lists_of, comes};
ghost use Rattle.digraph.specs.Adjacency.{neighbours};
ghost use Rattle.digraph.specs.code.Search.{IsMarked, IsSpread, IsDistanceTable};

use std::alloc::Global;
use values::Memory;

/// Gives nodes without a distance this one, and lists them.
pub fn mark(
    table: &mut Vec<Option<u32>>,
    next: &mut Vec<u32>,
    nodes: &[u32],
    distance: u32,
) -> Result<(), Memory>
    requires { All (λ n. n < length table.old.items) nodes.now }
    ensures long { length table.new.items ≡ length table.old.items }
    ensures marked { OnOk result
        (IsMarked table.old.items table.new.items next.old.items next.new.items nodes.now distance) }
{
    for node in nodes {
        let at = *node as usize;
        if table[at].is_none() {
            table[at] = Some(distance);
            next.push(*node)?;
        }
    }
    Ok(())
}

/// Gives the predecessors of some nodes their distance.
pub fn spread(
    alloc: Global,
    predecessors: &[Vec<u32>],
    table: &mut Vec<Option<u32>>,
    frontier: &[u32],
    distance: u32,
) -> Result<Vec<u32>, Memory>
    requires long { length table.old.items ≡ length predecessors.now }
    requires in_range { (k : ℕ)
        → All (λ n. n < length predecessors.now) (neighbours (lists_of predecessors.now) k) }
    requires frontier { All (λ n. n < length predecessors.now) frontier.now }
    ensures long { length table.new.items ≡ length table.old.items }
    ensures spread { IfOk result (λ next. IsSpread (lists_of predecessors.now)
        table.old.items table.new.items frontier.now next.items distance) }
{
    let mut next = Vec::new(alloc);
    for node in frontier {
        mark(table, &mut next, &predecessors[*node as usize], distance)?;
    }
    Ok(next)
}

/// A table without a distance.
pub fn blank(alloc: Global, count: usize) -> Result<Vec<Option<u32>>, Memory>
    ensures { IfOk result (λ table. table.items ≡ replicate count None) }
{
    let mut table = Vec::new(alloc);
    for _ in 0..count {
        table.push(None)?;
    }
    Ok(table)
}

/// Goes from a node back along the edges, the nearest nodes first.
pub fn search(
    alloc: Global,
    predecessors: &[Vec<u32>],
    start: u32,
) -> Result<Vec<Option<u32>>, Memory>
    requires few { length predecessors.now < 2 ^ 32 }
    requires start { start < length predecessors.now }
    requires in_range { (k : ℕ)
        → All (λ n. n < length predecessors.now) (neighbours (lists_of predecessors.now) k) }
    ensures long { IfOk result (λ table. length table.items ≡ length predecessors.now) }
    ensures table { IfOk result
        (λ table. IsDistanceTable (comes (lists_of predecessors.now)) start table.items) }
{
    let mut table = blank(alloc, predecessors.len())?;
    let mut frontier = Vec::new(alloc);
    mark(&mut table, &mut frontier, &[start], 0)?;
    let mut distance = 0;
    while !frontier.is_empty() {
        distance += 1;
        frontier = spread(alloc, predecessors, &mut table, &frontier, distance)?;
    }
    Ok(table)
}
