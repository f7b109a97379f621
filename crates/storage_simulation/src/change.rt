//! What one task more changes at a place.

ghost use Rattle.std.specs.Prelude.{◌≡◌, ◌≤◌, ◌<◌, ◌+◌, ◌^◌, ◌&&◌, true};
ghost use Rattle.std.specs.List.{list_any};
ghost use Rattle.values.specs.declared.numbers.TaskId.{TaskId};
ghost use Rattle.plan_core.specs.Numbers.{has};
ghost use Rattle.plan_core.specs.Words.{count_pairs, pair_numbers};
ghost use Rattle.storage_simulation.specs.code.Change.{cleaned_part, held_part, size_part, waits_for_maker};
ghost use Rattle.storage_simulation.specs.Usage.{sum_of};
ghost use Rattle.storage_simulation.specs.code.Goods.{IsWithinLimits};
ghost use Rattle.storage_simulation.specs.Goods.{is_delivery, makes};
ghost use Rattle.storage_simulation.specs.code.Law.{KeepsGoods};
ghost use Rattle.storage_simulation.specs.code.Standings.{held_of, phase_of};
ghost use Rattle.storage_simulation.specs.Standings.{sizes, waits};

use crate::goods::{finds_made, good_size, is_delivery, lies_at};
use crate::standing::Standing;
use plan_core::Plan;
use values::{PairId, TaskId};

/// What is held of a good at a place.
fn held_at(plan: &Plan, standing: &Standing, place: u32, good: u32) -> u64
    ensures { result ≡ held_part plan.now (sizes (held_of standing.now)) place good }
{
    if lies_at(plan, good, place) {
        standing.held_of(good)
    } else {
        0
    }
}

/// The declared size of a good that lies at a place, in bytes; 0 of another.
pub fn size_at(plan: &Plan, place: u32, good: u32) -> u64
    ensures { result ≡ size_part plan.now place good }
{
    if lies_at(plan, good, place) {
        good_size(plan, good)
    } else {
        0
    }
}

fn held_of_pairs(plan: &Plan, standing: &Standing, place: u32, pairs: &[PairId]) -> u64
    requires few { sum_of (held_part plan.now (sizes (held_of standing.now)) place) (pair_numbers pairs.now)
        < 2 ^ 63 }
    ensures { result ≡ sum_of (held_part plan.now (sizes (held_of standing.now)) place)
        (pair_numbers pairs.now) }
{
    let mut sum = 0;
    for pair in pairs {
        sum += held_at(plan, standing, place, pair.0);
    }
    sum
}

fn size_of_pairs(plan: &Plan, place: u32, pairs: &[PairId]) -> u64
    requires few { sum_of (size_part plan.now place) (pair_numbers pairs.now) < 2 ^ 63 }
    ensures { result ≡ sum_of (size_part plan.now place) (pair_numbers pairs.now) }
{
    let mut sum = 0;
    for pair in pairs {
        sum += size_at(plan, place, pair.0);
    }
    sum
}

/// What is held at a place of the goods that a task makes.
#[tactic(auto, unfolding(crate::specs::Goods::makes))]
pub(crate) fn held_of_made(plan: &Plan, standing: &Standing, place: u32, task: TaskId) -> u64
    requires limits { IsWithinLimits plan.now }
    requires few { sum_of (held_part plan.now (sizes (held_of standing.now)) place) (makes plan.now task.0)
        < 2 ^ 63 }
    ensures { result ≡ sum_of (held_part plan.now (sizes (held_of standing.now)) place)
        (makes plan.now task.0) }
{
    if is_delivery(plan, task) {
        return held_at(plan, standing, place, delivered_good(plan, task));
    }
    held_of_pairs(plan, standing, place, plan.writes(task))
}

/// The declared sizes at a place of the goods that a task makes.
#[tactic(auto, unfolding(crate::specs::Goods::makes))]
pub(crate) fn size_of_made(plan: &Plan, place: u32, task: TaskId) -> u64
    requires limits { IsWithinLimits plan.now }
    requires few { sum_of (size_part plan.now place) (makes plan.now task.0) < 2 ^ 63 }
    ensures { result ≡ sum_of (size_part plan.now place) (makes plan.now task.0) }
{
    if is_delivery(plan, task) {
        return size_at(plan, place, delivered_good(plan, task));
    }
    size_of_pairs(plan, place, plan.writes(task))
}

/// The good of a delivery.
#[tactic(auto, using(crate::proofs::GoodsLemmas::delivery_below))]
fn delivered_good(plan: &Plan, task: TaskId) -> u32
    requires limits { IsWithinLimits plan.now }
    requires delivers { is_delivery plan.now task.0 ≡ true }
    ensures { result ≡ count_pairs plan.now + task.0 }
{
    (plan.pairs.as_slice().len() + task.0 as usize) as u32
}

/// What a place holds after a task that is no Clean.
pub(crate) fn after_making(
    plan: &Plan,
    standing: &Standing,
    place: u32,
    task: TaskId,
    before: u64,
) -> u64
    requires limits { IsWithinLimits plan.now }
    requires enough { sum_of (held_part plan.now (sizes (held_of standing.now)) place)
        (makes plan.now task.0) ≤ before }
    requires held { before < 2 ^ 62 }
    requires few { sum_of (size_part plan.now place) (makes plan.now task.0) < 2 ^ 62 }
    ensures { result + sum_of (held_part plan.now (sizes (held_of standing.now)) place)
        (makes plan.now task.0) ≡ before + sum_of (size_part plan.now place) (makes plan.now task.0) }
{
    let held = held_of_made(plan, standing, place, task);
    let made = size_of_made(plan, place, task);
    before - held + made
}

fn any_waits(plan: &Plan, standing: &Standing, some: &[TaskId], good: u32) -> bool
    requires limits { IsWithinLimits plan.now }
    requires goods { KeepsGoods plan.now }
    ensures { result ≡ list_any (λ (u : TaskId). waits (phase_of standing.now u.0)
        && has (makes plan.now u.0) good) some.now }
{
    some.iter().any(|task| standing.waits(*task) && finds_made(plan, *task, good))
}

/// Whether a parent of a task waits that makes the good.
#[tactic(auto, using(crate::proofs::NumbersLemmas::any_task))]
fn waits_for_maker(plan: &Plan, standing: &Standing, task: TaskId, good: u32) -> bool
    requires limits { IsWithinLimits plan.now }
    requires goods { KeepsGoods plan.now }
    ensures { result ≡ waits_for_maker plan.now (phase_of standing.now) task.0 good }
{
    any_waits(plan, standing, plan.parents(task), good)
}

/// What a good counts at a place until its Clean.
pub(crate) fn cleaned_at(
    plan: &Plan,
    standing: &Standing,
    place: u32,
    task: TaskId,
    good: u32,
) -> u64
    requires limits { IsWithinLimits plan.now }
    requires goods { KeepsGoods plan.now }
    ensures { result ≡ cleaned_part plan.now (phase_of standing.now)
        (sizes (held_of standing.now)) task.0 place good }
{
    if !lies_at(plan, good, place) {
        0
    } else if waits_for_maker(plan, standing, task, good) {
        good_size(plan, good)
    } else {
        standing.held_of(good)
    }
}
