//! What an index says whatever is placed: where each task stands, and what comes with it.

ghost use Rattle.std.specs.Prelude.{◌≡◌, ◌≢◌, ◌≤◌, ◌<◌, ◌^◌, ℕ, Some, get_or, length};
ghost use Rattle.std.specs.List.Sorted.{IsPermutation, IsSorted};
ghost use Rattle.std.specs.Ordering.{nat_cmp, ordering_then};
ghost use Rattle.plan_core.specs.Words.{count_tasks};
ghost use Rattle.storage_simulation.specs.code.Change.{held_part, size_part};
ghost use Rattle.storage_simulation.specs.code.Front.{IsOrderable};
ghost use Rattle.storage_simulation.specs.code.Goods.{IsWithinLimits};
ghost use Rattle.storage_simulation.specs.Goods.{makes};
ghost use Rattle.storage_simulation.specs.code.Index.{AreSpots, IsIndexFor, IsLaid, Spot, home, need, need_at, spot_at};
ghost use Rattle.storage_simulation.specs.Ordering.{comes, size};
ghost use Rattle.storage_simulation.specs.code.Ordering.{progress};
ghost use Rattle.storage_simulation.specs.code.Standings.{IsStanding};
ghost use Rattle.storage_simulation.specs.Usage.{sum_of};

use crate::change::{held_of_made, size_of_made};
use crate::goods::{place_of, places};
use crate::index::{Index, Spot};
use crate::scoring::comes_of;
use crate::standing::Standing;
use plan_core::Plan;
use values::TaskId;

/// The home of a task.
pub(crate) fn home_of(plan: &Plan, task: TaskId) -> u32
    requires { IsWithinLimits plan.now }
    ensures { result ≡ home plan.now task.0 }
{
    let count = places(plan) as u32;
    if plan.is_clean(task) {
        return count + 1;
    }
    match place_of(plan, task) {
        Some(place) => place,
        None => count,
    }
}

/// What a task needs of a place, counted from 2^62.
fn need_at(plan: &Plan, standing: &Standing, task: TaskId, place: u32) -> u64
    requires limits { IsWithinLimits plan.now }
    requires few_sizes { sum_of (size_part plan.now place) (makes plan.now task.0) < 2 ^ 62 }
    requires few_held { sum_of (held_part plan.now (size (progress standing.now)) place)
        (makes plan.now task.0) < 2 ^ 62 }
    ensures { result ≡ need_at plan.now (progress standing.now) task.0 (Some place) }
{
    (1 << 62) + size_of_made(plan, place, task) - held_of_made(plan, standing, place, task)
}

/// What a task needs of its place, whatever is placed.
fn need_of(plan: &Plan, standing: &Standing, task: TaskId) -> u64
    requires orderable { IsOrderable plan.now }
    requires limits { IsWithinLimits plan.now }
    requires standing { IsStanding plan.now standing.now }
    ensures { result ≡ need plan.now (progress standing.now) task.0 }
{
    if plan.is_clean(task) {
        return 0;
    }
    match place_of(plan, task) {
        Some(place) => need_at(plan, standing, task, place),
        None => 0,
    }
}

fn spot_of(plan: &Plan, standing: &Standing, task: u32) -> Spot
    requires orderable { IsOrderable plan.now }
    requires limits { IsWithinLimits plan.now }
    requires standing { IsStanding plan.now standing.now }
    ensures { result ≡ (home plan.now task, need plan.now (progress standing.now) task, task) }
{
    (
        home_of(plan, TaskId(task)),
        need_of(plan, standing, TaskId(task)),
        task,
    )
}

/// The spot of each task, by number.
#[tactic(auto, using(crate::proofs::SpotLemmas::items_set))]
fn fill_spots(plan: &Plan, standing: &Standing, spots: &mut Vec<Spot>)
    requires orderable { IsOrderable plan.now }
    requires limits { IsWithinLimits plan.now }
    requires standing { IsStanding plan.now standing.now }
    requires long { length spots.old.items ≡ count_tasks plan.now }
    ensures long { length spots.new.items ≡ count_tasks plan.now }
    ensures each { (t : ℕ) → t < count_tasks plan.now
        → spot_at spots.new.items t ≡ (home plan.now t, need plan.now (progress standing.now) t, t) }
{
    for task in 0..plan.tasks.as_slice().len() {
        spots[task] = spot_of(plan, standing, task as u32);
    }
}

fn sort_spots(spots: &mut Vec<Spot>)
    ensures permutation { IsPermutation spots.old.items spots.new.items }
    ensures sorted { IsSorted (λ (x y : Spot). ordering_then (nat_cmp x.0 y.0)
        (ordering_then (nat_cmp x.1 y.1) (nat_cmp x.2 y.2))) spots.new.items }
{
    spots.sort_unstable();
}

/// The slot of each task.
fn fill_slots(spots: &[Spot], slots: &mut Vec<u32>)
    requires few { length spots.now ≤ 120000 }
    requires below { (j : ℕ) → j < length spots.now → (spot_at spots.now j).2 < length slots.old.items }
    requires once { (i j : ℕ) → i < j → j < length spots.now
        → (spot_at spots.now i).2 ≢ (spot_at spots.now j).2 }
    ensures long { length slots.new.items ≡ length slots.old.items }
    ensures slotted { (j : ℕ) → j < length spots.now → get_or slots.new.items (spot_at spots.now j).2 0 ≡ j }
{
    for j in 0..spots.len() {
        slots[spots[j].2 as usize] = j as u32;
    }
}

#[tactic(auto, using(crate::proofs::ResettingLemmas::numbers_set, crate::proofs::ScoringLemmas::comes_few))]
fn fill_comes(plan: &Plan, standing: &Standing, table: &mut Vec<u64>)
    requires orderable { IsOrderable plan.now }
    requires limits { IsWithinLimits plan.now }
    requires long { length table.old.items ≡ count_tasks plan.now }
    ensures long { length table.new.items ≡ count_tasks plan.now }
    ensures each { (t : ℕ) → t < count_tasks plan.now
        → get_or table.new.items t 0 ≡ comes plan.now (progress standing.now) t }
{
    for task in 0..plan.tasks.as_slice().len() {
        table[task] = comes_of(plan, standing, TaskId(task as u32));
    }
}

/// Puts all tasks on their spots.
fn lay_spots(plan: &Plan, standing: &Standing, spots: &mut Vec<Spot>, slots: &mut Vec<u32>)
    requires orderable { IsOrderable plan.now }
    requires limits { IsWithinLimits plan.now }
    requires standing { IsStanding plan.now standing.now }
    requires spots { length spots.old.items ≡ count_tasks plan.now }
    requires slots { length slots.old.items ≡ count_tasks plan.now }
    ensures long { length slots.new.items ≡ count_tasks plan.now }
    ensures spots { AreSpots plan.now (progress standing.now) spots.new.items slots.new.items }
{
    fill_spots(plan, standing, spots);
    sort_spots(spots);
    fill_slots(spots, slots);
}

/// Lays an index out for a standing.
pub(crate) fn lay(plan: &Plan, standing: &Standing, index: &mut Index)
    requires orderable { IsOrderable plan.now }
    requires limits { IsWithinLimits plan.now }
    requires standing { IsStanding plan.now standing.now }
    requires made_for { IsIndexFor plan.now index.old }
    ensures { IsLaid plan.now (progress standing.now) index.new }
{
    lay_spots(plan, standing, &mut index.spots, &mut index.slots);
    fill_comes(plan, standing, &mut index.comes);
}
