//! The nearest of some nodes, by a table of distances.

ghost use Rattle.std.specs.Prelude.{◌≡◌};
ghost use Rattle.digraph.specs.Adjacency.{IsRising};
ghost use Rattle.digraph.specs.code.Distances.{distance_at};
ghost use Rattle.digraph.specs.code.Nearest.{lesser, IsNearest, IsLeastAt};

/// What a table says of a node.
pub fn distance_at(table: &[Option<u32>], node: u32) -> Option<u32>
    ensures { result ≡ distance_at table.now node }
{
    match table.get(node as usize) {
        Some(distance) => *distance,
        None => None,
    }
}

fn lesser(first: Option<u32>, second: Option<u32>) -> Option<u32>
    ensures { result ≡ lesser first second }
{
    match (first, second) {
        (None, _) => second,
        (Some(_), None) => first,
        (Some(a), Some(b)) => Some(a.min(b)),
    }
}

/// The least distance of some nodes.
pub fn nearest(table: &[Option<u32>], nodes: &[u32]) -> Option<u32>
    ensures { IsNearest table.now nodes.now result }
{
    let mut best = None;
    for node in nodes {
        best = lesser(best, distance_at(table, *node));
    }
    best
}

/// The least of some nodes at a distance.
pub fn least_at(table: &[Option<u32>], nodes: &[u32], distance: u32) -> Option<u32>
    requires { IsRising nodes.now }
    ensures { IsLeastAt table.now nodes.now distance result }
{
    for node in nodes {
        if distance_at(table, *node) == Some(distance) {
            return Some(*node);
        }
    }
    None
}
