//! A row of keys, over it a row of the lesser one of each two, and so on.

ghost use Rattle.std.specs.Prelude.{◌≡◌, ◌≤◌, ◌<◌, ◌==◌, ◌&&◌, ℕ, true, cond, length, Vec, Option, None, set, IfOk};
ghost use Rattle.std.specs.declared.alloc.Global.{Global};
ghost use Rattle.tournament_tree.specs.Tree.{IsBare, IsEmpty, IsLeast, IsTree, better, entry, is_less, row, with_first, with_last};

use std::alloc::Global;
use values::Memory;

/// What is least first: the score, then the number.
#[derive(Clone, Copy)]
pub struct Key {
    pub score: u64,
    pub number: u32,
}

fn is_less(one: Key, two: Key) -> bool
    ensures { result ≡ is_less one two }
{
    one.score < two.score || (one.score == two.score && one.number < two.number)
}

/// The lesser of two keys.
pub fn lesser(one: Option<Key>, two: Option<Key>) -> Option<Key>
    ensures { result ≡ better one two }
{
    match (one, two) {
        (None, two) => two,
        (Some(one), None) => Some(one),
        (Some(one), Some(two)) => {
            if is_less(two, one) {
                Some(two)
            } else {
                Some(one)
            }
        }
    }
}

fn are_same(one: Option<Key>, two: Option<Key>) -> bool
    ensures { result ≡ true → one ≡ two }
{
    match (one, two) {
        (None, None) => true,
        (Some(one), Some(two)) => one.score == two.score && one.number == two.number,
        _ => false,
    }
}

fn row_of(rows: &[Vec<Option<Key>>], height: usize) -> &[Option<Key>]
    ensures { result.now ≡ row rows.now height }
{
    match rows.get(height) {
        Some(found) => found,
        None => &[],
    }
}

fn entry_of(rows: &[Vec<Option<Key>>], height: usize, at: usize) -> Option<Key>
    ensures { result ≡ entry rows.now height at }
{
    match row_of(rows, height).get(at) {
        Some(found) => *found,
        None => None,
    }
}

/// The best with the first entry of a range, where that is the second of its two.
fn with_first(
    rows: &[Vec<Option<Key>>],
    height: usize,
    low: usize,
    high: usize,
    best: Option<Key>,
) -> Option<Key>
    ensures { result ≡ with_first (entry rows.now height) low high best }
{
    if low < high && low % 2 == 1 {
        lesser(best, entry_of(rows, height, low))
    } else {
        best
    }
}

/// The best with the last entry of a range, where that is the first of its two and isn't taken yet.
fn with_last(
    rows: &[Vec<Option<Key>>],
    height: usize,
    low: usize,
    high: usize,
    best: Option<Key>,
) -> Option<Key>
    requires { low ≤ 200000 }
    ensures { result ≡ with_last (entry rows.now height) low high best }
{
    if low + low % 2 < high && high % 2 == 1 {
        lesser(entry_of(rows, height, high - 1), best)
    } else {
        best
    }
}

fn put(row: &mut Vec<Option<Key>>, at: usize, key: Option<Key>)
    requires { at < length row.old.items }
    ensures { row.new.items ≡ set row.old.items at key }
{
    row[at] = key;
}

/// Writes one entry.
fn write(rows: &mut Vec<Vec<Option<Key>>>, height: usize, at: usize, key: Option<Key>)
    requires height { height < length rows.old.items }
    requires at { at < length (row rows.old.items height) }
    ensures long { length rows.new.items ≡ length rows.old.items }
    ensures wide { (h : ℕ) → length (row rows.new.items h) ≡ length (row rows.old.items h) }
    ensures each { (h i : ℕ) → entry rows.new.items h i
        ≡ cond ((h == height) && (i == at)) key (entry rows.old.items h i) }
{
    put(&mut rows[height], at, key);
}

/// A row without a key.
fn bare(alloc: Global, width: usize) -> Result<Vec<Option<Key>>, Memory>
    ensures { IfOk result (λ v. IsBare v.items width) }
{
    let mut row = Vec::new(alloc);
    for at in 0..width {
        row.push(None)?;
    }
    Ok(row)
}

/// Rows of keys, each but the lowest made of the one below.
#[derive(Drop)]
pub struct Tree {
    pub rows: Vec<Vec<Option<Key>>>,
}

impl Tree {
    /// So many places, none of which has a key. Eighteen rows are enough for 2^18 places, so `least_between` and `set`
    /// take eighteen steps each.
    pub fn empty(alloc: Global, count: usize) -> Result<Tree, Memory>
        requires count { count ≤ 200000 }
        ensures tree { IfOk result (λ t. IsTree t.rows.items) }
        ensures wide { IfOk result (λ t. length (row t.rows.items 0) ≡ count) }
        ensures none { IfOk result (λ t. (i : ℕ) → entry t.rows.items 0 i ≡ None) }
    {
        let mut rows = Vec::new(alloc);
        let mut width = count;
        for height in 0..18usize {
            rows.push(bare(alloc, width)?)?;
            width = (width + 1) / 2;
        }
        Ok(Tree { rows })
    }

    /// The least key at the places from one on and below another.
    pub fn least_between(&self, from: usize, to: usize) -> Option<Key>
        requires tree { IsTree self.now.rows.items }
        requires from { from ≤ 200000 }
        requires to { to ≤ length (row self.now.rows.items 0) }
        ensures { IsLeast (entry self.now.rows.items 0) from to result }
    {
        let mut first = None;
        let mut last = None;
        let mut low = from;
        let mut high = to;
        for height in 0..self.rows.len() {
            first = with_first(self.rows.as_slice(), height, low, high, first);
            last = with_last(self.rows.as_slice(), height, low, high, last);
            low = (low + 1) / 2;
            high /= 2;
        }
        lesser(first, last)
    }

    /// Changes one key, and what stands over it as far as that changes too.
    pub fn set(&mut self, at: usize, key: Option<Key>)
        requires tree { IsTree self.old.rows.items }
        requires at { at < length (row self.old.rows.items 0) }
        ensures tree { IsTree self.new.rows.items }
        ensures wide { length (row self.new.rows.items 0) ≡ length (row self.old.rows.items 0) }
        ensures each { (i : ℕ) → entry self.new.rows.items 0 i
            ≡ cond (i == at) key (entry self.old.rows.items 0 i) }
    {
        write(&mut self.rows, 0, at, key);
        let mut place = at;
        for below in 0..self.rows.len() - 1 {
            let parent = place / 2;
            let one = entry_of(self.rows.as_slice(), below, 2 * parent);
            let two = entry_of(self.rows.as_slice(), below, 2 * parent + 1);
            let least = lesser(one, two);
            if are_same(least, entry_of(self.rows.as_slice(), below + 1, parent)) {
                return;
            }
            write(&mut self.rows, below + 1, parent, least);
            place = parent;
        }
    }
}
