//! Kahn's algorithm: each node is placed once all its predecessors are.

ghost use Rattle.std.specs.Prelude.{◌≡◌, ◌<◌, ◌≤◌, ◌+◌, ◌^◌, ℕ, length, map, IfOk, OnOk, All, Vec};
ghost use Rattle.std.specs.declared.alloc.Global.{Global};
ghost use Rattle.digraph.specs.code.Adjacency.{lists_of, AreLinked};
ghost use Rattle.digraph.specs.Adjacency.{times};
ghost use Rattle.digraph.specs.code.Kahn.{waits_for, free, waiting, IsReleased, IsPlacement};

use std::alloc::Global;
use values::Memory;

/// Nodes in order, and for each node how many of its predecessors aren't among them.
#[derive(Drop)]
pub struct Placement {
    pub ordered: Vec<u32>,
    pub counts: Vec<usize>,
}

/// How many predecessors each node has.
fn in_degrees(alloc: Global, predecessors: &[Vec<u32>]) -> Result<Vec<usize>, Memory>
    ensures { IfOk result
        (λ v. v.items ≡ map (λ (p : Vec ℕ Global). length p.items) predecessors.now) }
{
    Ok(predecessors.iter().map(|list| list.len()).collect(alloc)?)
}

/// The nodes that wait for none.
fn roots(alloc: Global, counts: &[usize]) -> Result<Vec<u32>, Memory>
    requires { length counts.now < 2 ^ 32 }
    ensures placed { IfOk result (λ v. (b : ℕ) → times b v.items ≡ free counts.now b) }
    ensures kept { IfOk result (λ v. waiting counts.now + length v.items ≡ length counts.now) }
    ensures done { IfOk result (λ v. All (λ n. waits_for counts.now n ≡ 0) v.items) }
{
    let mut nodes = Vec::new(alloc);
    for (i, count) in counts.iter().enumerate() {
        if *count == 0 {
            nodes.push(i as u32)?;
        }
    }
    Ok(nodes)
}

/// Counts one predecessor less for each of some nodes, and adds those that then wait for none.
fn release(
    counts: &mut Vec<usize>,
    ordered: &mut Vec<u32>,
    successors: &[u32],
) -> Result<(), Memory>
    requires in_range { All (λ n. n < length counts.old.items) successors.now }
    requires enough { (b : ℕ) → times b successors.now ≤ waits_for counts.old.items b }
    ensures long { length counts.new.items ≡ length counts.old.items }
    ensures released { OnOk result (IsReleased
        counts.old.items counts.new.items ordered.old.items ordered.new.items successors.now) }
{
    for successor in successors {
        let at = *successor as usize;
        let left = counts[at] - 1;
        counts[at] = left;
        if left == 0 {
            ordered.push(*successor)?;
        }
    }
    Ok(())
}

/// Places one node after the other whose predecessors are all placed.
pub fn place(
    alloc: Global,
    predecessors: &[Vec<u32>],
    successors: &[Vec<u32>],
) -> Result<Placement, Memory>
    requires few { length predecessors.now < 2 ^ 32 }
    requires linked { AreLinked (lists_of predecessors.now) (lists_of successors.now) }
    ensures { IfOk result
        (λ p. IsPlacement (lists_of predecessors.now) p.ordered.items p.counts.items) }
{
    let mut counts = in_degrees(alloc, predecessors)?;
    let mut ordered = roots(alloc, &counts)?;
    let mut head = 0;
    while head < ordered.len() {
        let node = ordered[head];
        release(&mut counts, &mut ordered, &successors[node as usize])?;
        head += 1;
    }
    Ok(Placement { ordered, counts })
}
