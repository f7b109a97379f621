//! Whether sizes are within the declared ones.

ghost use Rattle.std.specs.Prelude.{◌≡◌, ◌≤◌, [], ℕ, true, false, length, Decides};
ghost use Rattle.plan_core.specs.Numbers.{has};
ghost use Rattle.plan_core.specs.Words.{is_run};
ghost use Rattle.storage_simulation.specs.code.Goods.{IsWithinLimits};
ghost use Rattle.storage_simulation.specs.Goods.{good_size, makes};
ghost use Rattle.lease_rules.specs.Legal.{AreDeclared, AreOfFirst, ArePublished};

use crate::goods::{count_made, made_at};
use plan_core::Plan;
use storage_simulation::good_size;
use values::TaskId;

/// Whether one size is within that of each good that a task makes.
pub(crate) fn is_declared(plan: &Plan, task: TaskId, size: u64) -> bool
    requires { IsWithinLimits plan.now }
    ensures { Decides result ((g : ℕ) → has (makes plan.now task.0) g ≡ true → size ≤ good_size plan.now g) }
{
    for k in 0..count_made(plan, task) {
        if size > good_size(plan, made_at(plan, task, k)) {
            return false;
        }
    }
    true
}

/// Whether these are sizes of the first goods that a task makes.
fn are_of_first(plan: &Plan, task: TaskId, sizes: &[u64]) -> bool
    requires { IsWithinLimits plan.now }
    ensures { Decides result (AreOfFirst plan.now (makes plan.now task.0) sizes.now) }
{
    if sizes.len() > count_made(plan, task) {
        return false;
    }
    for k in 0..sizes.len() {
        if sizes[k] > good_size(plan, made_at(plan, task, k)) {
            return false;
        }
    }
    true
}

/// Whether these are sizes of all goods that a task makes.
pub(crate) fn are_declared(plan: &Plan, task: TaskId, sizes: &[u64]) -> bool
    requires { IsWithinLimits plan.now }
    ensures { Decides result (AreDeclared plan.now (makes plan.now task.0) sizes.now) }
{
    if sizes.len() != count_made(plan, task) {
        return false;
    }
    are_of_first(plan, task, sizes)
}

/// Whether a task may have published files of these sizes before it failed.
pub(crate) fn are_published(plan: &Plan, task: TaskId, sizes: &[u64]) -> bool
    requires { IsWithinLimits plan.now }
    ensures { Decides result (ArePublished plan.now task.0 sizes.now) }
{
    if !plan.is_run(task) && sizes.len() > 0 {
        return false;
    }
    are_of_first(plan, task, sizes)
}
