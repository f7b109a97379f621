//! Rows of a graph: the numbers before and after a node.

ghost use Rattle.std.specs.Prelude.{◌≡◌, ◌≤◌, ◌<◌, ◌^◌, ℕ};
ghost use Rattle.digraph.specs.code.Adjacency.{lists_of};
ghost use Rattle.digraph.specs.Adjacency.{neighbours};
ghost use Rattle.digraph.specs.code.Digraph.{edge};
ghost use Rattle.plan_core.specs.code.Numbers.{RisesFrom};
ghost use Rattle.plan_core.specs.Numbers.{has};

use digraph::Digraph;

fn row(lists: &[Vec<u32>], node: u32) -> &[u32]
    ensures { result.now ≡ neighbours (lists_of lists.now) node }
{
    match lists.get(node as usize) {
        Some(found) => found.as_slice(),
        None => &[],
    }
}

/// Those to which an edge leads from a node; none where there is no such node.
pub fn after(graph: &Digraph, node: u32) -> &[u32]
    ensures rises { RisesFrom 0 result.now }
    ensures same { (x : ℕ) → has result.now x ≡ edge graph.now node x }
{
    row(graph.successors(), node)
}

/// Those from which an edge leads to a node; none where there is no such node.
pub fn before(graph: &Digraph, node: u32) -> &[u32]
    ensures rises { RisesFrom 0 result.now }
    ensures same { (x : ℕ) → has result.now x ≡ edge graph.now x node }
{
    row(graph.predecessors(), node)
}

/// The larger of two counts.
pub fn larger(one: usize, two: usize) -> usize
    requires one { one < 2 ^ 32 }
    requires two { two < 2 ^ 32 }
    ensures one { one ≤ result }
    ensures two { two ≤ result }
    ensures few { result < 2 ^ 32 }
{
    if one < two { two } else { one }
}
