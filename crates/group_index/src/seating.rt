//! The places of positions in the trees of their groups.

ghost use Rattle.std.specs.Prelude.{◌≡◌, ◌≤◌, ◌<◌, ◌+◌, ◌==◌, ℕ, cond, length, get_or, None, IfOk};
ghost use Rattle.group_index.specs.Index.{AreAsMany, AreBare, AreSeated, AreTrees, IsIndex, count, key_at, number, width_at};

use crate::index::{GroupIndex, put, width};
use std::alloc::Global;
use tournament_tree::Tree;
use values::Memory;

/// A position takes its place.
fn seat_next(groups: &[u32], seats: &mut Vec<u32>, used: &mut Vec<u32>, k: usize)
    requires few { length groups.now ≤ 200000 }
    requires within { k < length groups.now }
    requires in_groups { (j : ℕ) → j < length groups.now → get_or groups.now j 0 < length used.old.items }
    requires long { length seats.old.items ≡ length groups.now }
    requires so_far { AreSeated groups.now seats.old.items used.old.items k }
    ensures seats_long { length seats.new.items ≡ length seats.old.items }
    ensures used_long { length used.new.items ≡ length used.old.items }
    ensures next { AreSeated groups.now seats.new.items used.new.items (k + 1) }
{
    let group = groups[k] as usize;
    let seat = used[group];
    seats[k] = seat;
    used[group] = seat + 1;
}

/// All positions take their places.
fn seat_all(groups: &[u32], seats: &mut Vec<u32>, used: &mut Vec<u32>)
    requires few { length groups.now ≤ 200000 }
    requires in_groups { (j : ℕ) → j < length groups.now → get_or groups.now j 0 < length used.old.items }
    requires long { length seats.old.items ≡ length groups.now }
    ensures seats_long { length seats.new.items ≡ length seats.old.items }
    ensures used_long { length used.new.items ≡ length used.old.items }
    ensures seated { AreSeated groups.now seats.new.items used.new.items (length groups.now) }
{
    used.fill(0);
    for k in 0..groups.len() {
        seat_next(groups, seats, used, k);
    }
}

/// A tree for each group, of so many places.
fn trees_of(alloc: Global, used: &[u32]) -> Result<Vec<Tree>, Memory>
    requires { (g : ℕ) → get_or used.now g 0 ≤ 200000 }
    ensures long { IfOk result (λ v. length v.items ≡ length used.now) }
    ensures trees { IfOk result (λ v. AreTrees v.items) }
    ensures wide { IfOk result (λ v. (g : ℕ) → g < length used.now
        → width_at v.items g ≡ get_or used.now g 0) }
    ensures bare { IfOk result (λ v. AreBare v.items) }
{
    let mut trees = Vec::new(alloc);
    for k in 0..used.len() {
        trees.push(Tree::empty(alloc, used[k] as usize)?)?;
    }
    Ok(trees)
}

/// Takes all keys of a group away.
fn clear_group(trees: &mut Vec<Tree>, group: usize)
    requires trees { AreTrees trees.old.items }
    requires group { group < length trees.old.items }
    ensures long { length trees.new.items ≡ length trees.old.items }
    ensures trees { AreTrees trees.new.items }
    ensures wide { (g : ℕ) → width_at trees.new.items g ≡ width_at trees.old.items g }
    ensures each { (g i : ℕ) → key_at trees.new.items g i
        ≡ cond (g == group) None (key_at trees.old.items g i) }
{
    for at in 0..width(trees.as_slice(), group) {
        put(trees, group, at, None);
    }
}

/// Takes all keys away.
fn clear(trees: &mut Vec<Tree>)
    requires trees { AreTrees trees.old.items }
    ensures long { length trees.new.items ≡ length trees.old.items }
    ensures trees { AreTrees trees.new.items }
    ensures wide { (g : ℕ) → width_at trees.new.items g ≡ width_at trees.old.items g }
    ensures bare { AreBare trees.new.items }
{
    for group in 0..trees.len() {
        clear_group(trees, group);
    }
}

/// Makes a list another one of the same length.
fn overwrite(to: &mut Vec<u32>, from: &[u32])
    requires { length to.old.items ≡ length from.now }
    ensures { to.new.items ≡ from.now }
{
    to.as_mut_slice().copy_from_slice(from);
}

fn copied(alloc: Global, numbers: &[u32]) -> Result<Vec<u32>, Memory>
    ensures { IfOk result (λ copy. copy.items ≡ numbers.now) }
{
    Ok(numbers.iter().copied().collect(alloc)?)
}

impl GroupIndex {
    /// Positions of these groups, which are below so many; none has a number.
    pub fn new(alloc: Global, groups: &[u32], count: usize) -> Result<GroupIndex, Memory>
        requires few { length groups.now ≤ 200000 }
        requires in_groups { (j : ℕ) → j < length groups.now → get_or groups.now j 0 < count }
        ensures index { IfOk result (λ x. IsIndex x) }
        ensures groups { IfOk result (λ x. x.groups.items ≡ groups.now) }
        ensures long { IfOk result (λ x. length x.trees.items ≡ count) }
        ensures none { IfOk result (λ x. (k : ℕ) → number x k ≡ None) }
    {
        let mut seats = vec![in alloc; 0; groups.len()]?;
        let mut used = vec![in alloc; 0; count]?;
        seat_all(groups, &mut seats, &mut used);
        let trees = trees_of(alloc, used.as_slice())?;
        Ok(GroupIndex {
            groups: copied(alloc, groups)?,
            seats,
            used,
            trees,
        })
    }

    /// The same groups in another order; none of the positions has a number.
    pub fn renew(&mut self, groups: &[u32])
        requires index { IsIndex self.old }
        requires long { length groups.now ≡ count self.old }
        requires in_groups { (j : ℕ) → j < length groups.now
            → get_or groups.now j 0 < length self.old.trees.items }
        requires as_many { AreAsMany (length self.old.trees.items) groups.now self.old.groups.items }
        ensures index { IsIndex self.new }
        ensures groups { self.new.groups.items ≡ groups.now }
        ensures long { length self.new.trees.items ≡ length self.old.trees.items }
        ensures none { (k : ℕ) → number self.new k ≡ None }
    {
        overwrite(&mut self.groups, groups);
        seat_all(groups, &mut self.seats, &mut self.used);
        clear(&mut self.trees);
    }
}
