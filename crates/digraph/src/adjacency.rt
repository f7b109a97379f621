//! Adjacency lists: for each node a list of its neighbours.

ghost use Rattle.std.specs.Prelude.{◌≡◌, ◌≤◌, ◌<◌, ◌==◌, ◌++◌, ◌||◌, ◌&&◌, ◌^◌, ℕ, [], ◌∷◌, length, cond, IfOk, OnOk, All};
ghost use Rattle.std.specs.List.{list_any};
ghost use Rattle.digraph.specs.code.Adjacency.{lists_of, IsTransposed};
ghost use Rattle.digraph.specs.Adjacency.{neighbours, has_node};
ghost use Rattle.digraph.specs.code.Scatter.{ends_with, IsScattered};

use std::alloc::Global;
use values::Memory;

/// So many empty lists.
pub fn empty_lists(alloc: Global, count: usize) -> Result<Vec<Vec<u32>>, Memory>
    ensures long { IfOk result (λ lists. length lists.items ≡ count) }
    ensures empty { IfOk result (λ lists. (k : ℕ) → neighbours (lists_of lists.items) k ≡ []) }
{
    let mut lists = Vec::new(alloc);
    for _ in 0..count {
        lists.push(Vec::new(alloc))?;
    }
    Ok(lists)
}

/// Adds a node to the list of another one.
fn add(lists: &mut Vec<Vec<u32>>, at: u32, node: u32) -> Result<(), Memory>
    requires { at < length lists.old.items }
    ensures long { length lists.new.items ≡ length lists.old.items }
    ensures added { OnOk result ((k : ℕ) → neighbours (lists_of lists.new.items) k
        ≡ (cond (at == k)
        (neighbours (lists_of lists.old.items) k ++ node ∷ [])
        (neighbours (lists_of lists.old.items) k))) }
{
    lists[at as usize].push(node)?;
    Ok(())
}

/// Adds the first node of each pair to the list of the second one.
pub fn add_pairs(lists: &mut Vec<Vec<u32>>, pairs: &[(u32, u32)]) -> Result<(), Memory>
    requires in_range { All (λ p. (p.0 < length lists.old.items) × (p.1 < length lists.old.items)) pairs.now }
    requires below { (k : ℕ)
        → All (λ n. n < length lists.old.items) (neighbours (lists_of lists.old.items) k) }
    ensures long { length lists.new.items ≡ length lists.old.items }
    ensures below { OnOk result ((k : ℕ)
        → All (λ n. n < length lists.old.items) (neighbours (lists_of lists.new.items) k)) }
    ensures added { OnOk result ((a b : ℕ) → has_node a (neighbours (lists_of lists.new.items) b)
        ≡ (has_node a (neighbours (lists_of lists.old.items) b)
        || list_any (λ (p : ℕ × ℕ). p.0 == a && p.1 == b) pairs.now)) }
{
    for pair in pairs {
        add(lists, pair.1, pair.0)?;
    }
    Ok(())
}

fn ends_with(list: &[u32], node: u32) -> bool
    ensures { result ≡ ends_with node list.now }
{
    match list {
        [.., last] => *last == node,
        [] => false,
    }
}

/// Adds a node at the end of each of some lists.
fn scatter(lists: &mut Vec<Vec<u32>>, places: &[u32], node: u32) -> Result<(), Memory>
    requires in_range { All (λ p. p < length lists.old.items) places.now }
    requires below { (k : ℕ) → All (λ n. n < node) (neighbours (lists_of lists.old.items) k) }
    ensures long { length lists.new.items ≡ length lists.old.items }
    ensures added { OnOk result
        (IsScattered (lists_of lists.old.items) (lists_of lists.new.items) node places.now) }
{
    for place in places {
        if !ends_with(&lists[*place as usize], node) {
            add(lists, *place, node)?;
        }
    }
    Ok(())
}

/// For each node those in whose lists it stands, in rising order, each once.
pub fn transposed(alloc: Global, lists: &[Vec<u32>]) -> Result<Vec<Vec<u32>>, Memory>
    requires few { length lists.now < 2 ^ 32 }
    requires in_range { (k : ℕ)
        → All (λ n. n < length lists.now) (neighbours (lists_of lists.now) k) }
    ensures { IfOk result (λ t. IsTransposed (lists_of lists.now) (lists_of t.items)) }
{
    let mut turned = empty_lists(alloc, lists.len())?;
    for (i, list) in lists.iter().enumerate() {
        scatter(&mut turned, list, i as u32)?;
    }
    Ok(turned)
}
