//! A list of live numbers, kept as a tree.

ghost use Rattle.std.specs.Prelude.{◌≡◌, ℕ, ◌+◌, ◌*◌, ◌≤◌, ◌<◌, ◌^◌, List, length, take, get_or, set, map, Option, Some, None, IfOk};
ghost use Rattle.std.specs.List.{All};
ghost use Rattle.peak_tree.specs.Numbers.{greatest, add_front, filled, StaysInRange};
ghost use Rattle.peak_tree.specs.Node.{numbers, IsShaped};

use crate::change::{Change, apply};
use crate::node::{Node, greatest_up_to, number};
use crate::shape::{fill, fill_uncounted, shape};
use crate::steps::Steps;
use std::alloc::Global;
use std::marker::{Brand, Model};
use std::sync::ledger::{Blank, Ledger};
use values::Memory;

/// A list with a live number, or none, at each position.
#[derive(Drop)]
pub struct PeakTree {
    greatest: Option<u64>,
    root: Node,
}

impl Model for PeakTree {
    ghost use Rattle.std.specs.Prelude.{ℕ, List, Option};

    ghost Value = { List (Option ℕ) };

    ghost use Rattle.peak_tree.specs.Tree.{list_of, IsTree};

    ghost view = { list_of };

    ghost invariant = { IsTree };
}

fn number_uncounted<L: Ledger>(
    node: &Node,
    top: Option<u64>,
    position: usize,
    blank: Blank,
) -> Option<u64>
    requires name { blank.name ≡ L.name }
    requires parts { blank.parts ≡ L.parts }
    requires some { 0 < blank.parts }
    requires shaped { IsShaped node.now }
    ensures { result ≡ get_or (numbers top node.now) position None }
{
    let mut steps = Steps::<L>::new(blank);
    number(node, top, position, &mut steps)
}

impl PeakTree {
    /// All of these numbers are live.
    pub fn of(alloc: Global, values: &[u64]) -> Result<PeakTree, Memory>
        ensures { IfOk result (λ tree. tree ≡ map Some values.now) }
    {
        let mut root = shape(alloc, values.len())?;
        let greatest = fill_uncounted::<Brand>(&mut root, values, Blank::new(1));
        Ok(PeakTree { greatest, root })
    }

    /// Adds this to the first numbers.
    pub fn add_front<L: Ledger>(&mut self, count: usize, delta: i64, steps: &mut Steps<L>)
        requires count { count ≤ length self.old }
        requires range { All (StaysInRange delta) (take count self.old) }
        ensures numbers { self.new ≡ add_front count delta self.old }
        ensures grows { steps.old ≤ steps.new }
        ensures few { (d : ℕ) → length self.old ≤ 2 ^ d → steps.new ≤ steps.old + (4 * d + 4) }
    {
        if count > 0 {
            self.greatest = apply(
                &mut self.root,
                self.greatest,
                count - 1,
                Change::Add(delta),
                steps,
            );
        }
    }

    /// The greatest of the first numbers.
    pub fn greatest_front<L: Ledger>(&self, count: usize, steps: &mut Steps<L>) -> Option<u64>
        requires { count ≤ length self.now }
        ensures greatest { result ≡ greatest (take count self.now) }
        ensures grows { steps.old ≤ steps.new }
        ensures few { (d : ℕ) → length self.now ≤ 2 ^ d → steps.new ≤ steps.old + (4 * d + 4) }
    {
        if count == 0 {
            None
        } else {
            greatest_up_to(&self.root, self.greatest, count - 1, steps)
        }
    }

    /// The position isn't live any more.
    pub fn remove<L: Ledger>(&mut self, position: usize, steps: &mut Steps<L>)
        requires { position < length self.old }
        ensures numbers { self.new ≡ set self.old position None }
        ensures grows { steps.old ≤ steps.new }
        ensures few { (d : ℕ) → length self.old ≤ 2 ^ d → steps.new ≤ steps.old + (4 * d + 4) }
    {
        self.greatest = apply(
            &mut self.root,
            self.greatest,
            position,
            Change::Remove,
            steps,
        );
    }

    /// The number at a position.
    pub fn value(&self, position: usize) -> Option<u64>
        requires { position < length self.now }
        ensures { result ≡ get_or self.now position None }
    {
        number_uncounted::<Brand>(&self.root, self.greatest, position, Blank::new(1))
    }

    /// The first positions have these numbers, and the others aren't live.
    pub fn refill<L: Ledger>(&mut self, values: &[u64], steps: &mut Steps<L>)
        requires { length values.now ≤ length self.old }
        ensures numbers { self.new ≡ filled values.now (length self.old) }
        ensures grows { steps.old ≤ steps.new }
        ensures few { (d : ℕ) → length self.old ≤ 2 ^ d → steps.new ≤ steps.old + 4 * 2 ^ d }
    {
        self.greatest = fill(&mut self.root, values, steps);
    }
}
