//! The goods that a task makes, one by one.

ghost use Rattle.std.specs.Prelude.{◌≡◌, ◌≤◌, ◌<◌, ◌+◌, ◌*◌, length, get_or};
ghost use Rattle.plan_core.specs.Words.{count_pairs, count_tasks};
ghost use Rattle.storage_simulation.specs.code.Goods.{IsWithinLimits};
ghost use Rattle.storage_simulation.specs.Goods.{makes};
ghost use Rattle.values.specs.Numbers.{total};
ghost use Rattle.lease_rules.specs.code.Law.{HasStorageLaws};

use plan_core::Plan;
use storage_simulation::is_delivery;
use values::TaskId;

/// How many goods a task makes.
#[tactic(auto, using(lease_rules::proofs::NumbersLemmas::count_pairs_in), unfolding(storage_simulation::specs::Goods::makes))]
pub(crate) fn count_made(plan: &Plan, task: TaskId) -> usize
    ensures { result ≡ length (makes plan.now task.0) }
{
    if is_delivery(plan, task) {
        return 1;
    }
    plan.writes(task).len()
}

/// One of the goods that a task makes.
#[tactic(auto, using(lease_rules::proofs::NumbersLemmas::pair_at, lease_rules::proofs::GoodsLemmas::delivery_below), unfolding(storage_simulation::specs::Goods::makes))]
pub(crate) fn made_at(plan: &Plan, task: TaskId, k: usize) -> u32
    requires limits { IsWithinLimits plan.now }
    requires within { k < length (makes plan.now task.0) }
    ensures { result ≡ get_or (makes plan.now task.0) k 0 }
{
    if is_delivery(plan, task) {
        return (plan.pairs.as_slice().len() + task.0 as usize) as u32;
    }
    plan.writes(task)[k].0
}

/// How many goods all tasks make.
#[tactic(auto, using(lease_rules::proofs::GoodsLemmas::made_so_far, lease_rules::proofs::TotalLemmas::total_more), unfolding(values::specs::Numbers::total))]
pub(crate) fn all_made(plan: &Plan) -> usize
    requires limits { IsWithinLimits plan.now }
    requires laws { HasStorageLaws plan.now }
    ensures value { result ≡ total (count_tasks plan.now) (λ t. length (makes plan.now t)) }
    ensures few { result ≤ 120000 * 3320000 }
{
    let mut sum = 0;
    for task in 0..plan.tasks.as_slice().len() {
        sum += count_made(plan, TaskId(task as u32));
    }
    sum
}
