//! A small tree of numbers. That each call is exact, of every tree, is what the clauses say.

ghost use Rattle.std.specs.Prelude.{◌≡◌, ◌≤◌, ◌<◌, length, take, IsTrue};
ghost use Rattle.std.specs.List.{All};
ghost use Rattle.peak_tree.specs.Numbers.{StaysInRange};

use peak_tree::{PeakTree, Steps};
use std::alloc::Global;
use std::marker::Brand;
use std::process::Abort;
use std::sync::ledger::{Blank, Ledger};
use std::test::Fail;

const GREATEST: u64 = 1 << 62;

fn stays(number: Option<u64>, delta: i64) -> bool
    ensures { IsTrue result → StaysInRange delta number }
{
    match number {
        None => true,
        Some(number) => match number.checked_add_signed(delta) {
            None => false,
            Some(sum) => sum <= GREATEST,
        },
    }
}

fn all_stay(tree: &PeakTree, count: usize, delta: i64) -> bool
    requires { count ≤ length tree.now }
    ensures { IsTrue result → All (StaysInRange delta) (take count tree.now) }
{
    for position in 0..count {
        if !stays(tree.value(position), delta) {
            return false;
        }
    }
    true
}

/// Of 3, 5, 2 the first is raised, then removed.
fn small_peak_tree<L: Ledger>(
    rt: &impl Abort,
    alloc: Global,
    steps: &mut Steps<L>,
) -> Result<(), Fail> {
    let Ok(mut tree) = PeakTree::of(alloc, &[3, 5, 2]) else {
        return Err(Fail::new("no memory"));
    };
    assert_eq!(rt; tree.greatest_front(3, steps), Some(5));
    assert!(rt; all_stay(&tree, 1, 4));
    tree.add_front(1, 4, steps);
    assert_eq!(rt; tree.greatest_front(3, steps), Some(7));
    tree.remove(0, steps);
    assert_eq!(rt; tree.greatest_front(3, steps), Some(5));
    assert_eq!(rt; tree.greatest_front(0, steps), None);
    Ok(())
}

/// The tree of 3, 5, 2 is refilled with 1.
fn refilled_tree<L: Ledger>(
    rt: &impl Abort,
    alloc: Global,
    steps: &mut Steps<L>,
) -> Result<(), Fail> {
    let Ok(mut tree) = PeakTree::of(alloc, &[3, 5, 2]) else {
        return Err(Fail::new("no memory"));
    };
    tree.refill(&[1], steps);
    assert_eq!(rt; tree.greatest_front(3, steps), Some(1));
    assert_eq!(rt; tree.value(0), Some(1));
    Ok(())
}

fn all_calls<L: Ledger>(rt: &impl Abort, alloc: Global, blank: Blank) -> Result<(), Fail>
    requires name { blank.name ≡ L.name }
    requires parts { blank.parts ≡ L.parts }
    requires some { 0 < blank.parts }
{
    let mut steps = Steps::<L>::new(blank);
    small_peak_tree(rt, alloc, &mut steps)?;
    refilled_tree(rt, alloc, &mut steps)
}

#[test]
fn a_tree_is_a_list(rt: HostRuntime) -> Result<(), Fail> {
    all_calls::<Brand>(&rt, rt.alloc(), Blank::new(1))
}
