//! What comes with a task, and what a Clean frees.

ghost use Rattle.std.specs.Prelude.{◌≡◌, ◌≤◌, ◌<◌, ◌==◌, ◌^◌, ℕ, cond, false, get_or, true};
ghost use Rattle.plan_core.specs.Words.{count_tasks, pair_numbers};
ghost use Rattle.storage_simulation.specs.code.Front.{front_of};
ghost use Rattle.storage_simulation.specs.code.Goods.{IsWithinLimits};
ghost use Rattle.storage_simulation.specs.code.Ordering.{IsOpen, progress};
ghost use Rattle.storage_simulation.specs.Ordering.{comes, coming, frees, goes, held_or_declared};
ghost use Rattle.storage_simulation.specs.code.Standings.{IsStanding};
ghost use Rattle.storage_simulation.specs.Usage.{sum_of};

use crate::goods::pair_size;
use crate::standing::{Held, Standing};
use plan_core::{Plan, TaskKind};
use values::{PairId, TaskId};

/// What a pair adds to the score of its writer.
fn coming(plan: &Plan, standing: &Standing, number: PairId) -> u64
    ensures { result ≡ coming plan.now (progress standing.now) number.0 }
{
    match standing.held(number.0) {
        Held::Nothing => pair_size(plan, number),
        _ => 0,
    }
}

fn coming_of_pairs(plan: &Plan, standing: &Standing, pairs: &[PairId]) -> u64
    requires few { sum_of (coming plan.now (progress standing.now)) (pair_numbers pairs.now) < 2 ^ 62 }
    ensures { result ≡ sum_of (coming plan.now (progress standing.now)) (pair_numbers pairs.now) }
{
    let mut sum = 0;
    for pair in pairs {
        sum += coming(plan, standing, *pair);
    }
    sum
}

/// What comes with a task.
pub(crate) fn comes_of(plan: &Plan, standing: &Standing, task: TaskId) -> u64
    requires few { comes plan.now (progress standing.now) task.0 < 2 ^ 62 }
    ensures { result ≡ comes plan.now (progress standing.now) task.0 }
{
    coming_of_pairs(plan, standing, plan.writes(task))
}

/// What is held of a pair, or its declared size where nothing is.
fn held_or_declared(plan: &Plan, standing: &Standing, number: PairId) -> u64
    ensures { result ≡ held_or_declared plan.now (progress standing.now) number.0 }
{
    match standing.held(number.0) {
        Held::Nothing => pair_size(plan, number),
        Held::Stored(size) => size,
        Held::Reserved(size) => size,
    }
}

/// The bytes that a Clean frees; none where the task is no Clean.
#[tactic(auto, unfolding(crate::specs::Ordering::frees))]
pub(crate) fn frees(plan: &Plan, standing: &Standing, task: TaskId) -> u64
    ensures { result ≡ frees plan.now (progress standing.now) task.0 }
{
    match plan.kind(task) {
        Some(TaskKind::Clean { pair }) => held_or_declared(plan, standing, *pair),
        _ => 0,
    }
}
