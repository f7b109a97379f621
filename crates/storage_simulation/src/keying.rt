//! The keys of tasks, and the best key of a home.

ghost use Rattle.std.specs.Prelude.{◌≡◌, ◌≢◌, ◌≤◌, ◌<◌, ◌+◌, ◌-◌, ◌==◌, ◌^◌, ℕ, cond, false, get_or, length, min, nat_le, true};
ghost use Rattle.tournament_tree.specs.Tree.{IsTree, entry, row};
ghost use Rattle.plan_core.specs.Words.{count_tasks, is_clean};
ghost use Rattle.storage_simulation.specs.code.Front.{IsSet, front_of};
ghost use Rattle.storage_simulation.specs.Goods.{place_bound, places};
ghost use Rattle.storage_simulation.specs.code.Index.{AreGoes, IsBestAt, IsCut, IsKeyed, IsLaid, IsSettled, IsUpTo, Spot, home, homes, is_before_home, is_up_to, need, ready_key, spot_at, told};
ghost use Rattle.storage_simulation.specs.OrderLaw.{fits_after};
ghost use Rattle.storage_simulation.specs.code.Ordering.{IsOpen, progress};

use crate::choosing::is_open;
use crate::front::Front;
use crate::goods::{place_bound, places};
use crate::index::{Index, Spot};
use crate::standing::Standing;
use plan_core::Plan;
use tournament_tree::Key;
use values::TaskId;

fn number_at(numbers: &[u64], at: u32) -> u64
    ensures { result ≡ get_or numbers.now at 0 }
{
    match numbers.get(at as usize) {
        Some(found) => *found,
        None => 0,
    }
}

fn slot_at(slots: &[u32], at: u32) -> u32
    ensures { result ≡ get_or slots.now at 0 }
{
    match slots.get(at as usize) {
        Some(found) => *found,
        None => 0,
    }
}

/// The key of a task, if it is ready.
#[tactic(auto, using(crate::proofs::KeyingLemmas::key_none, crate::proofs::KeyingLemmas::key_some))]
fn key_now(plan: &Plan, standing: &Standing, front: &Front, index: &Index, task: u32) -> Option<Key>
    requires set { IsSet plan.now standing.now front.now }
    requires in_range { task < count_tasks plan.now }
    requires laid { IsLaid plan.now (progress standing.now) index.now }
    requires goes { AreGoes plan.now (progress standing.now) (front_of front.now) index.now.goes.items }
    ensures { result ≡ ready_key plan.now (progress standing.now) (front_of front.now) task }
{
    if !is_open(plan, standing, front, TaskId(task)) {
        return None;
    }
    if plan.is_clean(TaskId(task)) {
        return Some(Key {
            score: 0,
            number: task,
        });
    }
    let comes = number_at(&index.comes, task);
    let goes = number_at(&index.goes, task);
    Some(Key {
        score: (1 << 62) + comes - goes,
        number: task,
    })
}

/// Makes the key of a task anew.
pub(crate) fn set_key(plan: &Plan, standing: &Standing, front: &Front, index: &mut Index, task: u32)
    requires set { IsSet plan.now standing.now front.now }
    requires in_range { task < count_tasks plan.now }
    requires laid { IsLaid plan.now (progress standing.now) index.old }
    requires goes { AreGoes plan.now (progress standing.now) (front_of front.now) index.old.goes.items }
    ensures laid { IsLaid plan.now (progress standing.now) index.new }
    ensures keyed { IsKeyed index.old index.new }
    ensures told { (u : ℕ) → u < count_tasks plan.now
        → told index.new u ≡ cond (u == task)
        (ready_key plan.now (progress standing.now) (front_of front.now) task) (told index.old u) }
{
    let key = key_now(plan, standing, front, index, task);
    let slot = slot_at(&index.slots, task);
    index.keys.set(slot as usize, key);
}

/// How many spots are at earlier homes.
#[tactic(auto, using(crate::proofs::KeyingLemmas::before_back))]
fn start_of(spots: &[Spot], at: u32) -> usize
    requires few { length spots.now ≤ 120000 }
    requires rising { (i j : ℕ) → i ≤ j → j < length spots.now
        → IsUpTo (spot_at spots.now i) (spot_at spots.now j) }
    ensures { IsCut (λ j. is_before_home at (spot_at spots.now j)) (length spots.now) result }
{
    let mut low = 0;
    let mut high = spots.len();
    while low < high {
        let middle = low + (high - low) / 2;
        if spots[middle].0 < at {
            low = middle + 1;
        } else {
            high = middle;
        }
    }
    low
}

fn is_up_to(spot: Spot, at: u32, room: u64) -> bool
    ensures { result ≡ is_up_to at room spot }
{
    spot.0 < at || (spot.0 == at && spot.1 <= room)
}

/// How many spots are at earlier homes, or at the home with no greater need.
#[tactic(auto, using(crate::proofs::KeyingLemmas::up_back))]
fn end_of(spots: &[Spot], at: u32, room: u64) -> usize
    requires few { length spots.now ≤ 120000 }
    requires rising { (i j : ℕ) → i ≤ j → j < length spots.now
        → IsUpTo (spot_at spots.now i) (spot_at spots.now j) }
    ensures { IsCut (λ j. is_up_to at room (spot_at spots.now j)) (length spots.now) result }
{
    let mut low = 0;
    let mut high = spots.len();
    while low < high {
        let middle = low + (high - low) / 2;
        if is_up_to(spots[middle], at, room) {
            low = middle + 1;
        } else {
            high = middle;
        }
    }
    low
}

/// The room of a place, counted from 2^62 and up to 2^63.
fn room_at(plan: &Plan, standing: &Standing, front: &Front, place: u32) -> u64
    requires set { IsSet plan.now standing.now front.now }
    requires place { place < places plan.now }
    ensures { result ≡ 2 ^ 62 + min (place_bound plan.now place - get_or front.now.used.items place 0)
        (2 ^ 62) }
{
    let _standing = standing;
    let room = place_bound(plan, place) - front.used(place);
    (1 << 62) + room.min(1 << 62)
}

/// The greatest need of a task of a home that fits.
fn room_of(plan: &Plan, standing: &Standing, front: &Front, at: u32) -> u64
    requires set { IsSet plan.now standing.now front.now }
    requires home { at < homes plan.now }
    ensures fits { (t : ℕ) → IsOpen plan.now (progress standing.now) (front_of front.now) t
        → home plan.now t ≡ at → is_clean plan.now t ≡ false
        → nat_le (need plan.now (progress standing.now) t) result
        ≡ fits_after plan.now (progress standing.now) (front_of front.now) t }
{
    if (at as usize) < places(plan) {
        room_at(plan, standing, front, at)
    } else {
        0
    }
}

/// The least key of the tasks of a home that may be placed.
fn best_of(plan: &Plan, standing: &Standing, front: &Front, index: &Index, at: u32) -> Option<Key>
    requires set { IsSet plan.now standing.now front.now }
    requires home { at < homes plan.now }
    requires laid { IsLaid plan.now (progress standing.now) index.now }
    requires told { (u : ℕ) → u < count_tasks plan.now
        → told index.now u ≡ ready_key plan.now (progress standing.now) (front_of front.now) u }
    ensures { IsBestAt plan.now (progress standing.now) (front_of front.now) at result }
{
    let room = room_of(plan, standing, front, at);
    let from = start_of(&index.spots, at);
    let to = end_of(&index.spots, at, room);
    index.keys.least_between(from, to)
}

/// Makes the best key of a home anew.
pub(crate) fn set_best(plan: &Plan, standing: &Standing, front: &Front, index: &mut Index, at: u32)
    requires set { IsSet plan.now standing.now front.now }
    requires home { at < homes plan.now }
    requires laid { IsLaid plan.now (progress standing.now) index.old }
    requires told { (u : ℕ) → u < count_tasks plan.now
        → told index.old u ≡ ready_key plan.now (progress standing.now) (front_of front.now) u }
    ensures laid { IsLaid plan.now (progress standing.now) index.new }
    ensures settled { IsSettled index.old index.new }
    ensures here { IsBestAt plan.now (progress standing.now) (front_of front.now) at
        (entry index.new.best.rows.items 0 at) }
    ensures others { (h : ℕ) → h ≢ at
        → entry index.new.best.rows.items 0 h ≡ entry index.old.best.rows.items 0 h }
{
    let best = best_of(plan, standing, front, index, at);
    index.best.set(at as usize, best);
}
