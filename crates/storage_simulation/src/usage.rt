//! Usage of a place after a front of an order.

ghost use Rattle.std.specs.Prelude.{◌≡◌, ◌≤◌, ◌^◌, ℕ};
ghost use Rattle.std.specs.List.{list_any};
ghost use Rattle.values.specs.declared.numbers.TaskId.{TaskId};
ghost use Rattle.plan_core.specs.Numbers.{has};
ghost use Rattle.plan_core.specs.Words.{cleans, task_numbers};
ghost use Rattle.storage_simulation.specs.code.Goods.{IsWithinLimits};
ghost use Rattle.storage_simulation.specs.Goods.{makes};
ghost use Rattle.storage_simulation.specs.code.Standings.{IsStanding, held_of};
ghost use Rattle.storage_simulation.specs.Standings.{sizes};
ghost use Rattle.storage_simulation.specs.Usage.{cleaned, made, usage_of_good, usage, weight};

use crate::goods::{good_size, goods, lies_at, makes};
use crate::standing::Standing;
use plan_core::Plan;
use values::{PairId, SiteId, TaskId};

fn any_makes(plan: &Plan, front: &[TaskId], good: u32) -> bool
    requires { IsWithinLimits plan.now }
    ensures { result ≡ list_any (λ (t : TaskId). has (makes plan.now t.0) good) front.now }
{
    front.iter().any(|task| makes(plan, *task, good))
}

/// Whether a task of the front makes the good.
#[tactic(auto, using(crate::proofs::NumbersLemmas::any_task))]
fn made(plan: &Plan, front: &[TaskId], good: u32) -> bool
    requires { IsWithinLimits plan.now }
    ensures { result ≡ made plan.now (task_numbers front.now) good }
{
    any_makes(plan, front, good)
}

fn any_cleans(plan: &Plan, front: &[TaskId], good: u32) -> bool
    ensures { result ≡ list_any (λ (t : TaskId). cleans plan.now t.0 good) front.now }
{
    front.iter().any(|task| plan.cleans(*task, PairId(good)))
}

/// Whether a task of the front cleans the good.
#[tactic(auto, using(crate::proofs::NumbersLemmas::any_task))]
fn cleaned(plan: &Plan, front: &[TaskId], good: u32) -> bool
    ensures { result ≡ cleaned plan.now (task_numbers front.now) good }
{
    any_cleans(plan, front, good)
}

/// What a good counts after a front.
fn weight(plan: &Plan, standing: &Standing, front: &[TaskId], good: u32) -> u64
    requires { IsWithinLimits plan.now }
    ensures { result ≡ weight plan.now (sizes (held_of standing.now)) (task_numbers front.now) good }
{
    if cleaned(plan, front, good) {
        0
    } else if made(plan, front, good) {
        good_size(plan, good)
    } else {
        standing.held_of(good)
    }
}

/// What it counts at a place.
fn part(plan: &Plan, standing: &Standing, front: &[TaskId], place: u32, good: u32) -> u64
    requires limits { IsWithinLimits plan.now }
    requires standing { IsStanding plan.now standing.now }
    ensures value { result ≡ usage_of_good plan.now (sizes (held_of standing.now))
        (task_numbers front.now) place good }
    ensures small { result ≤ 2 ^ 40 }
{
    if lies_at(plan, good, place) {
        weight(plan, standing, front, good)
    } else {
        0
    }
}

/// The bytes at a site after a front, or at the output, whose number follows the last site's.
#[tactic(auto, using(crate::proofs::UsageLemmas::total_more), unfolding(values::specs::Numbers::total))]
pub fn usage_after(plan: &Plan, standing: &Standing, front: &[TaskId], site: SiteId) -> u64
    requires limits { IsWithinLimits plan.now }
    requires standing { IsStanding plan.now standing.now }
    ensures { result ≡ usage plan.now (sizes (held_of standing.now)) (task_numbers front.now) site.0 }
{
    let mut sum = 0;
    for good in 0..goods(plan) {
        sum += part(plan, standing, front, site.0, good as u32);
    }
    sum
}
