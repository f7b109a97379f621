//! The cycle that a fault names.

ghost use Rattle.std.specs.Prelude.{◌≡◌, ◌<◌, ◌≤◌, ◌∷◌, ◌^◌, ℕ, Some, true, length, IfOk, MatchOption, All};
ghost use Rattle.digraph.specs.code.Adjacency.{lists_of, leads, AreLinked};
ghost use Rattle.digraph.specs.Adjacency.{neighbours, IsRising};
ghost use Rattle.digraph.specs.Cycle.{Returns};
ghost use Rattle.digraph.specs.code.Cycle.{Descends, IsCycleFrom, IsNamedCycle};
ghost use Rattle.digraph.specs.code.Distances.{distance_at};
ghost use Rattle.digraph.specs.code.Ranks.{AreRanks};
ghost use Rattle.digraph.specs.code.Search.{IsDistanceTable};

use crate::nearest::{distance_at, least_at, nearest};
use crate::ranks::ranks;
use crate::search::search;
use std::alloc::Global;
use values::Memory;

/// From a node to the one that the table is about, without the latter.
fn descend(
    alloc: Global,
    successors: &[Vec<u32>],
    table: &[Option<u32>],
    start: u32,
    first: u32,
    distance: u32,
) -> Result<Vec<u32>, Memory>
    requires rising { (k : ℕ) → IsRising (neighbours (lists_of successors.now) k) }
    requires long { length table.now ≡ length successors.now }
    requires table { IsDistanceTable (leads (lists_of successors.now)) start table.now }
    requires first { distance_at table.now first ≡ Some distance }
    ensures descends { IfOk result
        (λ v. Descends (leads (lists_of successors.now)) start distance first v.items) }
    ensures in_range { IfOk result (λ v. All (λ n. n < length successors.now) v.items) }
{
    let mut nodes = Vec::new(alloc);
    let mut node = first;
    let mut left = distance;
    while node != start {
        nodes.push(node)?;
        left -= 1;
        node = match least_at(table, &successors[node as usize], left) {
            Some(successor) => successor,
            None => unreachable!(),
        };
    }
    Ok(nodes)
}

/// A list with one node before it.
fn with_first(alloc: Global, first: u32, rest: &[u32]) -> Result<Vec<u32>, Memory>
    ensures { IfOk result (λ v. v.items ≡ first ∷ rest.now) }
{
    let mut nodes = Vec::new(alloc);
    nodes.push(first)?;
    nodes.extend_from_slice(rest)?;
    Ok(nodes)
}

/// The shortest way from a node back to it.
fn cycle_from(
    alloc: Global,
    predecessors: &[Vec<u32>],
    successors: &[Vec<u32>],
    start: u32,
) -> Result<Option<Vec<u32>>, Memory>
    requires few { length predecessors.now < 2 ^ 32 }
    requires linked { AreLinked (lists_of predecessors.now) (lists_of successors.now) }
    requires start { start < length predecessors.now }
    ensures cycle { IfOk result
        (λ o. MatchOption o (Returns (leads (lists_of successors.now)) start → ⊥)
        (λ ns. IsCycleFrom (leads (lists_of successors.now)) start ns.items)) }
    ensures in_range { IfOk result
        (λ o. MatchOption o (Unit {0}) (λ ns. All (λ n. n < length successors.now) ns.items)) }
{
    let table = search(alloc, predecessors, start)?;
    let next = &successors[start as usize];
    let distance = match nearest(&table, next) {
        Some(distance) => distance,
        None => return Ok(None),
    };
    let second = match least_at(&table, next, distance) {
        Some(successor) => successor,
        None => unreachable!(),
    };
    let rest = descend(alloc, successors, &table, start, second, distance)?;
    Ok(Some(with_first(alloc, start, &rest)?))
}

/// Whether the ranks show that a node doesn't return to itself: no edge leads to one of its own
/// rank.
fn stays_away(ranks: &[Option<u32>], successors: &[Vec<u32>], node: u32) -> bool
    requires rising { (k : ℕ) → IsRising (neighbours (lists_of successors.now) k) }
    requires ranks { AreRanks (leads (lists_of successors.now)) ranks.now }
    requires node { node < length successors.now }
    ensures { result ≡ true → Returns (leads (lists_of successors.now)) node → ⊥ }
{
    match distance_at(ranks, node) {
        Some(rank) => least_at(ranks, &successors[node as usize], rank).is_none(),
        None => false,
    }
}

/// The cycle from the least node that returns to itself: the shortest way back, and among these the
/// one with the least numbers, the first first.
pub fn named_cycle(
    alloc: Global,
    predecessors: &[Vec<u32>],
    successors: &[Vec<u32>],
) -> Result<Option<Vec<u32>>, Memory>
    requires few { length predecessors.now < 2 ^ 32 }
    requires linked { AreLinked (lists_of predecessors.now) (lists_of successors.now) }
    ensures cycle { IfOk result
        (λ o. MatchOption o ((a : ℕ) → Returns (leads (lists_of successors.now)) a → ⊥)
        (λ ns. IsNamedCycle (leads (lists_of successors.now)) ns.items)) }
    ensures in_range { IfOk result
        (λ o. MatchOption o (Unit {0}) (λ ns. All (λ n. n < length successors.now) ns.items)) }
{
    let ranks = ranks(alloc, predecessors, successors)?;
    for node in 0..successors.len() as u32 {
        if stays_away(&ranks, successors, node) {
            continue;
        }
        if let Some(cycle) = cycle_from(alloc, predecessors, successors, node)? {
            return Ok(Some(cycle));
        }
    }
    Ok(None)
}
