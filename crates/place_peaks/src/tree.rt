//! Calls on one tree.

ghost use Rattle.std.specs.Prelude.{◌≡◌, ◌≤◌, ◌<◌, ◌+◌, ◌-◌, ◌^◌, ℕ, take, set, length, None, Decides};
ghost use Rattle.std.specs.List.{All};
ghost use Rattle.peak_tree.specs.Numbers.{StaysInRange, add_front, filled, greatest};
ghost use Rattle.place_peaks.specs.Tree.{AllFirst, CanFall, CanRise, HasRoom, IsUpTo, front_changed};

use peak_tree::{PeakTree, Steps};
use std::marker::Brand;
use std::sync::ledger::{Blank, Ledger};

fn add<L: Ledger>(tree: &mut PeakTree, count: usize, delta: i64, blank: Blank)
    requires name { blank.name ≡ L.name }
    requires parts { blank.parts ≡ L.parts }
    requires some { 0 < blank.parts }
    requires count { count ≤ length tree.old }
    requires range { All (StaysInRange delta) (take count tree.old) }
    ensures { tree.new ≡ add_front count delta tree.old }
{
    let mut steps = Steps::<L>::new(blank);
    tree.add_front(count, delta, &mut steps);
}

fn greatest<L: Ledger>(tree: &PeakTree, count: usize, blank: Blank) -> Option<u64>
    requires name { blank.name ≡ L.name }
    requires parts { blank.parts ≡ L.parts }
    requires some { 0 < blank.parts }
    requires count { count ≤ length tree.now }
    ensures { result ≡ greatest (take count tree.now) }
{
    let mut steps = Steps::<L>::new(blank);
    tree.greatest_front(count, &mut steps)
}

fn remove<L: Ledger>(tree: &mut PeakTree, position: usize, blank: Blank)
    requires name { blank.name ≡ L.name }
    requires parts { blank.parts ≡ L.parts }
    requires some { 0 < blank.parts }
    requires position { position < length tree.old }
    ensures { tree.new ≡ set tree.old position None }
{
    let mut steps = Steps::<L>::new(blank);
    tree.remove(position, &mut steps);
}

/// Makes the first numbers greater.
pub(crate) fn raise(tree: &mut PeakTree, count: usize, by: u64)
    requires count { count ≤ length tree.old }
    requires by { by ≤ 2 ^ 62 }
    requires range { AllFirst count (CanRise by) tree.old }
    ensures { tree.new ≡ front_changed count (λ n. n + by) tree.old }
{
    add::<Brand>(tree, count, by as i64, Blank::new(1));
}

/// Makes the first numbers less.
pub(crate) fn lower(tree: &mut PeakTree, count: usize, by: u64)
    requires count { count ≤ length tree.old }
    requires by { by ≤ 2 ^ 62 }
    requires range { AllFirst count (CanFall by) tree.old }
    ensures { tree.new ≡ front_changed count (λ n. n - by) tree.old }
{
    add::<Brand>(tree, count, -(by as i64), Blank::new(1));
}

/// The greatest of the numbers before a position.
pub(crate) fn greatest_before(tree: &PeakTree, position: usize) -> Option<u64>
    requires { position ≤ length tree.now }
    ensures { result ≡ greatest (take position tree.now) }
{
    greatest::<Brand>(tree, position, Blank::new(1))
}

/// The position isn't live any more.
pub(crate) fn take_out(tree: &mut PeakTree, position: usize)
    requires { position < length tree.old }
    ensures { tree.new ≡ set tree.old position None }
{
    remove::<Brand>(tree, position, Blank::new(1));
}

/// A task of the order starts: it brings so much in all fronts before it, and isn't left any more.
pub(crate) fn start(tree: &mut PeakTree, seat: usize, brings: u64)
    requires seat { seat < length tree.old }
    requires brings { brings ≤ 2 ^ 62 }
    requires range { AllFirst seat (CanRise brings) tree.old }
    ensures { tree.new ≡ set (front_changed seat (λ n. n + brings) tree.old) seat None }
{
    raise(tree, seat, brings);
    take_out(tree, seat);
}

/// A Clean of the order is done: so much goes in all fronts before it, and it isn't left any more.
pub(crate) fn sweep(tree: &mut PeakTree, seat: usize, frees: u64)
    requires seat { seat < length tree.old }
    requires frees { frees ≤ 2 ^ 62 }
    requires range { AllFirst seat (CanFall frees) tree.old }
    ensures { tree.new ≡ set (front_changed seat (λ n. n - frees) tree.old) seat None }
{
    lower(tree, seat, frees);
    take_out(tree, seat);
}

fn is_up_to(most: u64, number: Option<u64>) -> bool
    ensures { Decides result (IsUpTo most number) }
{
    match number {
        None => true,
        Some(number) => number <= most,
    }
}

/// Whether a task that brings so much has room below its bound, where a place holds so much before the first task, and so
/// much at most after one of those before it.
pub(crate) fn has_room(top: Option<u64>, base: u64, brings: u64, bound: u64) -> bool
    ensures { Decides result (HasRoom brings base top bound) }
{
    if brings > bound {
        return false;
    }
    let most = bound - brings;
    if base > most {
        return false;
    }
    is_up_to(most, top)
}

fn fill<L: Ledger>(tree: &mut PeakTree, levels: &[u64], blank: Blank)
    requires name { blank.name ≡ L.name }
    requires parts { blank.parts ≡ L.parts }
    requires some { 0 < blank.parts }
    requires few { length levels.now ≤ length tree.old }
    ensures { tree.new ≡ filled levels.now (length tree.old) }
{
    let mut steps = Steps::<L>::new(blank);
    tree.refill(levels, &mut steps);
}

/// The first positions have these numbers, and the others aren't live.
pub(crate) fn refill(tree: &mut PeakTree, levels: &[u64])
    requires { length levels.now ≤ length tree.old }
    ensures { tree.new ≡ filled levels.now (length tree.old) }
{
    fill::<Brand>(tree, levels, Blank::new(1));
}
