//! A tree is made, and filled with numbers.

ghost use Rattle.std.specs.Prelude.{◌≡◌, ℕ, ◌+◌, ◌≤◌, ◌<◌, ◌^◌, length, None, IfOk};
ghost use Rattle.peak_tree.specs.Numbers.{filled};
ghost use Rattle.peak_tree.specs.Node.{width, depth, nodes, numbers, IsShaped, IsUnder};

use crate::node::{Gaps, Node, Parts, greater, visit};
use crate::steps::Steps;
use std::alloc::Global;
use std::sync::ledger::{Blank, Ledger};
use values::Memory;

/// So many positions, of which none is live.
pub fn shape(alloc: Global, count: usize) -> Result<Node, Memory>
    ensures shaped { IfOk result (λ node. IsShaped node) }
    ensures width { IfOk result (λ node. width node ≡ count) }
    ensures depth { IfOk result (λ node. (d : ℕ) → count ≤ 2 ^ d → depth node ≤ d) }
{
    if count == 0 {
        return Ok(Node::Empty);
    }
    if count == 1 {
        return Ok(Node::Position);
    }
    let middle = count / 2;
    let left = shape(alloc, middle)?;
    let right = shape(alloc, count - middle)?;
    let gaps = Gaps::of(None, None);
    let fork = Box::new(
        alloc,
        Parts {
            middle,
            gaps,
            left,
            right,
        },
    )?;
    Ok(Node::Fork(fork))
}

/// Puts these numbers to the first positions and none to the others, and answers the greatest one.
pub fn fill<L: Ledger>(node: &mut Node, values: &[u64], steps: &mut Steps<L>) -> Option<u64>
    requires shaped { IsShaped node.old }
    requires few { length values.now ≤ width node.old }
    ensures shaped { IsShaped node.new }
    ensures under { IsUnder result node.new }
    ensures numbers { numbers result node.new ≡ filled values.now (width node.old) }
    ensures width { width node.new ≡ width node.old }
    ensures depth { depth node.new ≡ depth node.old }
    ensures steps { steps.new ≡ steps.old + nodes node.old }
{
    visit(node, steps);
    match node {
        Node::Empty => None,
        Node::Position => values.first().copied(),
        Node::Fork(fork) => {
            let Parts {
                middle,
                gaps,
                left,
                right,
            } = &mut **fork;
            let (before, after) = values.split_at(values.len().min(*middle));
            let first = fill(left, before, steps);
            let second = fill(right, after, steps);
            *gaps = Gaps::of(first, second);
            greater(first, second)
        }
    }
}

/// The same with a counter of its own.
pub fn fill_uncounted<L: Ledger>(node: &mut Node, values: &[u64], blank: Blank) -> Option<u64>
    requires name { blank.name ≡ L.name }
    requires parts { blank.parts ≡ L.parts }
    requires some { 0 < blank.parts }
    requires shaped { IsShaped node.old }
    requires few { length values.now ≤ width node.old }
    ensures shaped { IsShaped node.new }
    ensures under { IsUnder result node.new }
    ensures numbers { numbers result node.new ≡ filled values.now (width node.old) }
    ensures width { width node.new ≡ width node.old }
    ensures depth { depth node.new ≡ depth node.old }
{
    let mut steps = Steps::<L>::new(blank);
    fill(node, values, &mut steps)
}
