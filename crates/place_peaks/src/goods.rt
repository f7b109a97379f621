//! The goods that a task makes, one by one, and what they come to.

ghost use Rattle.std.specs.Prelude.{◌≡◌, ◌<◌, ◌^◌, length, get_or};
ghost use Rattle.storage_simulation.specs.code.Change.{size_part};
ghost use Rattle.storage_simulation.specs.code.Goods.{IsWithinLimits};
ghost use Rattle.storage_simulation.specs.Goods.{makes};
ghost use Rattle.storage_simulation.specs.Usage.{sum_of};

use plan_core::Plan;
use storage_simulation::{is_delivery, size_at};
use values::TaskId;

/// How many goods a task makes.
#[tactic(auto, using(lease_rules::proofs::NumbersLemmas::count_pairs_in), unfolding(storage_simulation::specs::Goods::makes))]
pub(crate) fn count_made(plan: &Plan, task: TaskId) -> usize
    ensures { result ≡ length (makes plan.now task.0) }
{
    if is_delivery(plan, task) {
        return 1;
    }
    plan.writes(task).len()
}

/// One of the goods that a task makes.
#[tactic(auto, using(lease_rules::proofs::NumbersLemmas::pair_at, lease_rules::proofs::GoodsLemmas::delivery_below), unfolding(storage_simulation::specs::Goods::makes))]
pub(crate) fn made_at(plan: &Plan, task: TaskId, k: usize) -> u32
    requires limits { IsWithinLimits plan.now }
    requires within { k < length (makes plan.now task.0) }
    ensures { result ≡ get_or (makes plan.now task.0) k 0 }
{
    if is_delivery(plan, task) {
        return (plan.pairs.as_slice().len() + task.0 as usize) as u32;
    }
    plan.writes(task)[k].0
}

/// The declared sizes at a place of the goods that a task makes.
pub(crate) fn made_size(plan: &Plan, place: u32, task: u32) -> u64
    requires limits { IsWithinLimits plan.now }
    requires few { sum_of (size_part plan.now place) (makes plan.now task) < 2 ^ 62 }
    ensures { result ≡ sum_of (size_part plan.now place) (makes plan.now task) }
{
    let mut sum = 0;
    for k in 0..count_made(plan, TaskId(task)) {
        sum += size_at(plan, place, made_at(plan, TaskId(task), k));
    }
    sum
}
