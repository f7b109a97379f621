//! The nodes of the tree, and what is read on the way to a position.

ghost use Rattle.std.specs.Prelude.{◌≡◌, ℕ, ◌+◌, take, get_or, None};
ghost use Rattle.peak_tree.specs.Numbers.{greater, greatest};
ghost use Rattle.peak_tree.specs.Node.{below, gap, gaps_of, way, numbers, IsShaped, IsUnder};

use crate::steps::Steps;
use std::sync::ledger::Ledger;

/// How far the greatest number of each part is below that of both.
#[derive(Clone, Copy)]
pub struct Gaps {
    pub left: Option<u64>,
    pub right: Option<u64>,
}

/// Some positions side by side. The node over it, or the tree, knows its greatest number.
#[cycle(node)]
#[derive(Drop)]
pub enum Node {
    Empty,
    Position,
    Fork(Box<Parts>),
}

/// Two parts, of which the left one has so many positions.
#[cycle(node)]
#[derive(Drop)]
pub struct Parts {
    pub middle: usize,
    pub gaps: Gaps,
    pub left: Node,
    pub right: Node,
}

/// The greater one of two numbers.
pub fn greater(one: Option<u64>, two: Option<u64>) -> Option<u64>
    ensures { result ≡ greater one two }
{
    match (one, two) {
        (None, two) => two,
        (Some(one), None) => Some(one),
        (Some(one), Some(two)) => Some(one.max(two)),
    }
}

fn below(top: Option<u64>, gap: Option<u64>) -> Option<u64>
    ensures { result ≡ below top gap }
{
    match (top, gap) {
        (Some(top), Some(gap)) => Some(top.saturating_sub(gap)),
        _ => None,
    }
}

fn gap(top: Option<u64>, part: Option<u64>) -> Option<u64>
    ensures { result ≡ gap top part }
{
    match (top, part) {
        (Some(top), Some(part)) => Some(top.saturating_sub(part)),
        _ => None,
    }
}

impl Gaps {
    /// The greatest numbers of the parts, where that of both is this one.
    pub fn parts(self, top: Option<u64>) -> (Option<u64>, Option<u64>)
        ensures left { result.0 ≡ below top self.left }
        ensures right { result.1 ≡ below top self.right }
    {
        (below(top, self.left), below(top, self.right))
    }

    /// The gaps of parts with these greatest numbers.
    pub fn of(left: Option<u64>, right: Option<u64>) -> Gaps
        ensures { result ≡ gaps_of left right }
    {
        let top = greater(left, right);
        Gaps {
            left: gap(top, left),
            right: gap(top, right),
        }
    }
}

/// Each visit of a node goes through this call, and is a step.
pub fn visit<'a, L: Ledger>(node: &'a Node, steps: &mut Steps<L>) -> &'a Node
    ensures node { result.now ≡ node.now }
    ensures step { steps.new ≡ steps.old + 1 }
{
    steps.tick();
    node
}

/// The number at a position.
pub fn number<L: Ledger>(
    node: &Node,
    top: Option<u64>,
    position: usize,
    steps: &mut Steps<L>,
) -> Option<u64>
    requires shaped { IsShaped node.now }
    ensures number { result ≡ get_or (numbers top node.now) position None }
    ensures steps { steps.new ≡ steps.old + way position node.now }
{
    match visit(node, steps) {
        Node::Empty => None,
        Node::Position => { if position == 0 { top } else { None } }
        Node::Fork(fork) => {
            let Parts {
                middle,
                gaps,
                left,
                right,
            } = &**fork;
            let (first, second) = gaps.parts(top);
            if position < *middle {
                number(left, first, position, steps)
            } else {
                number(right, second, position - *middle, steps)
            }
        }
    }
}

/// The greatest number up to a position.
pub fn greatest_up_to<L: Ledger>(
    node: &Node,
    top: Option<u64>,
    position: usize,
    steps: &mut Steps<L>,
) -> Option<u64>
    requires shaped { IsShaped node.now }
    requires under { IsUnder top node.now }
    ensures greatest { result ≡ greatest (take (position + 1) (numbers top node.now)) }
    ensures steps { steps.new ≡ steps.old + way position node.now }
{
    match visit(node, steps) {
        Node::Empty => None,
        Node::Position => top,
        Node::Fork(fork) => {
            let Parts {
                middle,
                gaps,
                left,
                right,
            } = &**fork;
            let (first, second) = gaps.parts(top);
            if position < *middle {
                greatest_up_to(left, first, position, steps)
            } else {
                let best = greatest_up_to(right, second, position - *middle, steps);
                greater(first, best)
            }
        }
    }
}
