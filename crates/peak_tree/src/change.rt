//! Changes of a front or of a position.

ghost use Rattle.std.specs.Prelude.{◌≡◌, ℕ, ◌+◌, ◌<◌, take, Option};
ghost use Rattle.std.specs.List.{AllByRecursion};
ghost use Rattle.peak_tree.specs.Numbers.{added, StaysInRange};
ghost use Rattle.peak_tree.specs.Node.{width, depth, way, numbers, IsShaped, IsUnder};
ghost use Rattle.peak_tree.specs.Change.{before, at, CanTake, changed};

use crate::node::{Gaps, Node, Parts, greater, visit};
use crate::steps::Steps;
use std::sync::ledger::Ledger;

/// What is done up to a position.
#[derive(Clone, Copy)]
pub enum Change {
    /// Adds this to each number up to the position.
    Add(i64),
    /// Removes the number at the position.
    Remove,
}

fn added(number: Option<u64>, delta: i64) -> Option<u64>
    requires { StaysInRange delta number }
    ensures { result ≡ added delta number }
{
    match number {
        None => None,
        Some(number) => number.checked_add_signed(delta),
    }
}

impl Change {
    /// What becomes of a number before the position, or of the greatest one of some.
    fn before(self, number: Option<u64>) -> Option<u64>
        requires { CanTake self number }
        ensures { result ≡ before self number }
    {
        match self {
            Change::Add(delta) => added(number, delta),
            Change::Remove => number,
        }
    }

    /// What becomes of the number at the position.
    fn at(self, number: Option<u64>) -> Option<u64>
        requires { CanTake self number }
        ensures { result ≡ at self number }
    {
        match self {
            Change::Add(delta) => added(number, delta),
            Change::Remove => None,
        }
    }
}

/// Applies a change, and answers the greatest number then.
pub fn apply<L: Ledger>(
    node: &mut Node,
    top: Option<u64>,
    position: usize,
    change: Change,
    steps: &mut Steps<L>,
) -> Option<u64>
    requires shaped { IsShaped node.old }
    requires under { IsUnder top node.old }
    requires position { position < width node.old }
    requires numbers { AllByRecursion (CanTake change) (take (position + 1) (numbers top node.old)) }
    ensures shaped { IsShaped node.new }
    ensures under { IsUnder result node.new }
    ensures numbers { numbers result node.new ≡ changed change position (numbers top node.old) }
    ensures width { width node.new ≡ width node.old }
    ensures depth { depth node.new ≡ depth node.old }
    ensures steps { steps.new ≡ steps.old + way position node.old }
{
    visit(node, steps);
    match node {
        Node::Empty => None,
        Node::Position => change.at(top),
        Node::Fork(fork) => {
            let Parts {
                middle,
                gaps,
                left,
                right,
            } = &mut **fork;
            let (first, second) = gaps.parts(top);
            if position < *middle {
                let first = apply(left, first, position, change, steps);
                *gaps = Gaps::of(first, second);
                greater(first, second)
            } else {
                let first = change.before(first);
                let second = apply(right, second, position - *middle, change, steps);
                *gaps = Gaps::of(first, second);
                greater(first, second)
            }
        }
    }
}
