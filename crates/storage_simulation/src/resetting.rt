//! A front that is set to a standing.

ghost use Rattle.std.specs.Prelude.{◌≡◌, ◌≤◌, ◌<◌, ◌^◌, [], ℕ, cond, get_or, length, true};
ghost use Rattle.plan_core.specs.Words.{count_tasks, parents, task_numbers};
ghost use Rattle.storage_simulation.specs.code.Front.{IsFrontFor, IsOrderable, IsSet, missing};
ghost use Rattle.storage_simulation.specs.code.Goods.{IsWithinLimits};
ghost use Rattle.storage_simulation.specs.Goods.{places};
ghost use Rattle.storage_simulation.specs.Ordering.{is_done, size};
ghost use Rattle.storage_simulation.specs.code.Ordering.{progress};
ghost use Rattle.storage_simulation.specs.code.Standings.{IsStanding};
ghost use Rattle.storage_simulation.specs.Usage.{IsWithin, sum_of, usage};

use crate::front::Front;
use crate::goods::places;
use crate::standing::Standing;
use crate::usage::usage_after;
use plan_core::Plan;
use values::{SiteId, TaskId};

/// Whether a task runs or has ended.
#[tactic(auto, using(crate::proofs::ResettingLemmas::done_first))]
fn has_begun(standing: &Standing, task: TaskId) -> bool
    ensures { result ≡ is_done (progress standing.now) [] task.0 }
{
    !standing.waits(task)
}

#[tactic(auto, using(crate::proofs::ResettingLemmas::flags_set))]
fn reset_done(plan: &Plan, standing: &Standing, done: &mut Vec<bool>)
    requires limits { IsWithinLimits plan.now }
    requires long { length done.old.items ≡ count_tasks plan.now }
    ensures long { length done.new.items ≡ count_tasks plan.now }
    ensures each { (t : ℕ) → t < count_tasks plan.now
        → get_or done.new.items t true ≡ is_done (progress standing.now) [] t }
{
    for task in 0..plan.tasks.as_slice().len() {
        done[task] = has_begun(standing, TaskId(task as u32));
    }
}

fn count_waiting(standing: &Standing, tasks: &[TaskId]) -> u32
    requires few { sum_of (λ u. cond (is_done (progress standing.now) [] u) 0 1) (task_numbers tasks.now)
        < 2 ^ 32 }
    ensures { result ≡ sum_of (λ u. cond (is_done (progress standing.now) [] u) 0 1)
        (task_numbers tasks.now) }
{
    let mut count = 0;
    for task in tasks {
        if !has_begun(standing, *task) {
            count += 1;
        }
    }
    count
}

/// How many parents of a task neither run nor have ended.
fn waited_for(plan: &Plan, standing: &Standing, task: TaskId) -> u32
    requires few { missing plan.now (progress standing.now) [] task.0 < 2 ^ 32 }
    ensures { result ≡ missing plan.now (progress standing.now) [] task.0 }
{
    count_waiting(standing, plan.parents(task))
}

#[tactic(auto, using(crate::proofs::ResettingLemmas::numbers_set))]
fn reset_missing(plan: &Plan, standing: &Standing, counts: &mut Vec<u32>)
    requires limits { IsWithinLimits plan.now }
    requires few { (t : ℕ) → missing plan.now (progress standing.now) [] t < 2 ^ 32 }
    requires long { length counts.old.items ≡ count_tasks plan.now }
    ensures long { length counts.new.items ≡ count_tasks plan.now }
    ensures each { (t : ℕ) → t < count_tasks plan.now
        → get_or counts.new.items t 0 ≡ missing plan.now (progress standing.now) [] t }
{
    for task in 0..plan.tasks.as_slice().len() {
        counts[task] = waited_for(plan, standing, TaskId(task as u32));
    }
}

#[tactic(auto, using(crate::proofs::ResettingLemmas::numbers_set))]
fn reset_used(plan: &Plan, standing: &Standing, used: &mut Vec<u64>)
    requires limits { IsWithinLimits plan.now }
    requires standing { IsStanding plan.now standing.now }
    requires long { length used.old.items ≡ places plan.now }
    ensures long { length used.new.items ≡ places plan.now }
    ensures each { (s : ℕ) → s < places plan.now
        → get_or used.new.items s 0 ≡ usage plan.now (size (progress standing.now)) [] s }
{
    for place in 0..places(plan) {
        used[place] = usage_after(plan, standing, &[], SiteId(place as u32));
    }
}

fn copy_used(used: &[u64], peaks: &mut Vec<u64>)
    requires long { length peaks.old.items ≡ length used.now }
    ensures { peaks.new.items ≡ used.now }
{
    peaks.copy_from_slice(used);
}

/// Takes all tasks off a front, and sets it to a standing.
pub(crate) fn reset(plan: &Plan, standing: &Standing, front: &mut Front)
    requires made_for { IsFrontFor plan.now front.old }
    requires orderable { IsOrderable plan.now }
    requires limits { IsWithinLimits plan.now }
    requires standing { IsStanding plan.now standing.now }
    requires within { IsWithin plan.now (size (progress standing.now)) [] }
    ensures { IsSet plan.now standing.now front.new }
{
    front.placed.clear();
    reset_done(plan, standing, &mut front.done);
    reset_missing(plan, standing, &mut front.missing);
    reset_used(plan, standing, &mut front.used);
    copy_used(&front.used, &mut front.peaks);
}
