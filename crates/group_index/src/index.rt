//! A tree of keys for each group.

ghost use Rattle.std.specs.Prelude.{◌≡◌, ◌<◌, ◌==◌, ◌&&◌, ◌^◌, ℕ, cond, length, get_or, Some, None};
ghost use Rattle.group_index.specs.Index.{AreTrees, IsIndex, IsLeastBefore, IsEnd, count, end_of, group, key_at, key_of, number, seat, width_at};

use tournament_tree::{Key, Tree};

/// By position its group, and how many positions of that group stand before it; by group how many positions it has, and a
/// tree with the key of each by that place: its number, and the position.
#[derive(Drop)]
pub struct GroupIndex {
    pub groups: Vec<u32>,
    pub(crate) seats: Vec<u32>,
    pub(crate) used: Vec<u32>,
    pub trees: Vec<Tree>,
}

/// Changes one key of a group.
pub(crate) fn put(trees: &mut Vec<Tree>, group: usize, at: usize, key: Option<Key>)
    requires trees { AreTrees trees.old.items }
    requires group { group < length trees.old.items }
    requires at { at < width_at trees.old.items group }
    ensures long { length trees.new.items ≡ length trees.old.items }
    ensures trees { AreTrees trees.new.items }
    ensures wide { (g : ℕ) → width_at trees.new.items g ≡ width_at trees.old.items g }
    ensures each { (g i : ℕ) → key_at trees.new.items g i
        ≡ cond ((g == group) && (i == at)) key (key_at trees.old.items g i) }
{
    trees[group].set(at, key);
}

/// How many places a group has.
pub(crate) fn width(trees: &[Tree], group: usize) -> usize
    ensures { result ≡ width_at trees.now group }
{
    match trees.get(group) {
        None => 0,
        Some(tree) => match tree.rows.get(0) {
            None => 0,
            Some(row) => row.len(),
        },
    }
}

impl GroupIndex {
    fn group(&self, k: usize) -> u32
        ensures { result ≡ group self.now k }
    {
        match self.groups.get(k) {
            Some(group) => *group,
            None => 0,
        }
    }

    fn seat(&self, k: usize) -> u32
        ensures { result ≡ seat self.now k }
    {
        match self.seats.get(k) {
            Some(seat) => *seat,
            None => 0,
        }
    }

    /// Gives a position a number, or takes it away.
    pub fn set(&mut self, k: usize, score: Option<u64>)
        requires index { IsIndex self.old }
        requires within { k < count self.old }
        ensures index { IsIndex self.new }
        ensures groups { self.new.groups.items ≡ self.old.groups.items }
        ensures long { length self.new.trees.items ≡ length self.old.trees.items }
        ensures numbers { (j : ℕ) → j < count self.old
            → number self.new j ≡ cond (j == k) score (number self.old j) }
    {
        let group = self.group(k) as usize;
        let seat = self.seat(k) as usize;
        put(&mut self.trees, group, seat, key_of(k, score));
    }

    /// How many places of a group stand before a position of it, or at all.
    fn end_of(&self, group: u32, end: Option<usize>) -> usize
        ensures { result ≡ end_of self.now group end }
    {
        match end {
            None => width(self.trees.as_slice(), group as usize),
            Some(k) => self.seat(k) as usize,
        }
    }

    /// The position with the least number of a group, among those before one of its positions, or among all.
    pub fn least_before(&self, group: u32, end: Option<usize>) -> Option<usize>
        requires index { IsIndex self.now }
        requires group { group < length self.now.trees.items }
        requires end { IsEnd self.now group end }
        ensures { IsLeastBefore self.now group end result }
    {
        let to = self.end_of(group, end);
        match self.trees[group as usize].least_between(0, to) {
            None => None,
            Some(key) => Some(key.number as usize),
        }
    }
}

/// The key of a position.
fn key_of(k: usize, score: Option<u64>) -> Option<Key>
    requires { k < 2 ^ 32 }
    ensures { result ≡ key_of k score }
{
    match score {
        None => None,
        Some(score) => Some(Key {
            score,
            number: k as u32,
        }),
    }
}
