//! What goes with each waiting task, kept up as tasks are placed.

ghost use Rattle.std.specs.Prelude.{◌≡◌, ◌≤◌, ◌<◌, ◌+◌, ◌*◌, ◌^◌, ℕ, false, get_or, length, true};
ghost use Rattle.plan_core.specs.code.Numbers.{RisesFrom};
ghost use Rattle.plan_core.specs.Numbers.{has};
ghost use Rattle.plan_core.specs.Words.{count_tasks, parents};
ghost use Rattle.storage_simulation.specs.code.Front.{IsSet, front_of, missing};
ghost use Rattle.storage_simulation.specs.code.Index.{AreGoes, IsLast, last_of};
ghost use Rattle.storage_simulation.specs.Ordering.{goes, is_done};
ghost use Rattle.storage_simulation.specs.code.Ordering.{progress};
ghost use Rattle.storage_simulation.specs.Usage.{sum_of};

use crate::front::Front;
use crate::scoring::frees;
use crate::standing::Standing;
use plan_core::Plan;
use values::TaskId;

/// The one parent of a task that isn't done.
pub(crate) fn last_parent(plan: &Plan, standing: &Standing, front: &Front, task: u32) -> u32
    requires set { IsSet plan.now standing.now front.now }
    requires one { missing plan.now (progress standing.now) (front_of front.now) task ≡ 1 }
    ensures { IsLast plan.now (progress standing.now) (front_of front.now) task result }
{
    let _standing = standing;
    let parents = plan.parents(TaskId(task));
    for parent in parents {
        if !front.is_done(parent.0) {
            return parent.0;
        }
    }
    0
}

/// Adds what a task frees to its last parent, where one alone isn't done.
fn raise_one(plan: &Plan, standing: &Standing, front: &Front, table: &mut Vec<u64>, task: u32)
    requires set { IsSet plan.now standing.now front.now }
    requires in_range { task < count_tasks plan.now }
    requires long { length table.old.items ≡ count_tasks plan.now }
    requires small { (v : ℕ) → get_or table.old.items v 0 ≤ 2 ^ 63 }
    ensures long { length table.new.items ≡ count_tasks plan.now }
    ensures each { (v : ℕ) → is_done (progress standing.now) (front_of front.now) v ≡ false
        → get_or table.new.items v 0 ≡ get_or table.old.items v 0 + last_of plan.now (progress standing.now)
        (front_of front.now) v task }
    ensures small { (v : ℕ) → get_or table.new.items v 0 ≤ get_or table.old.items v 0 + 2 ^ 40 }
    ensures others { (v : ℕ) → is_done (progress standing.now) (front_of front.now) v ≡ true
        → get_or table.new.items v 0 ≡ get_or table.old.items v 0 }
{
    if front.missing(task) == 1 {
        let last = last_parent(plan, standing, front, task);
        table[last as usize] += frees(plan, standing, TaskId(task));
    }
}

/// What goes with each waiting task, after tasks have one parent less.
fn raise_all(plan: &Plan, standing: &Standing, front: &Front, table: &mut Vec<u64>, tasks: &[u32])
    requires set { IsSet plan.now standing.now front.now }
    requires rises { RisesFrom 0 tasks.now }
    requires in_range { (c : ℕ) → has tasks.now c ≡ true → c < count_tasks plan.now }
    requires long { length table.old.items ≡ count_tasks plan.now }
    requires small { (v : ℕ) → get_or table.old.items v 0 ≤ 2 ^ 62 }
    ensures long { length table.new.items ≡ count_tasks plan.now }
    ensures each { (v : ℕ) → is_done (progress standing.now) (front_of front.now) v ≡ false
        → get_or table.new.items v 0 ≡ get_or table.old.items v 0 + sum_of
        (last_of plan.now (progress standing.now) (front_of front.now) v) tasks.now }
    ensures others { (v : ℕ) → is_done (progress standing.now) (front_of front.now) v ≡ true
        → get_or table.new.items v 0 ≡ get_or table.old.items v 0 }
{
    for task in tasks {
        raise_one(plan, standing, front, table, *task);
    }
}

#[tactic(auto, using(crate::proofs::ResettingLemmas::numbers_set))]
fn zero_out(numbers: &mut Vec<u64>)
    ensures long { length numbers.new.items ≡ length numbers.old.items }
    ensures each { (k : ℕ) → k < length numbers.old.items → get_or numbers.new.items k 0 ≡ 0 }
{
    for place in 0..numbers.len() {
        numbers[place] = 0;
    }
}

/// What goes with each waiting task.
pub(crate) fn reset_goes(plan: &Plan, standing: &Standing, front: &Front, table: &mut Vec<u64>)
    requires set { IsSet plan.now standing.now front.now }
    requires long { length table.old.items ≡ count_tasks plan.now }
    ensures long { length table.new.items ≡ count_tasks plan.now }
    ensures goes { AreGoes plan.now (progress standing.now) (front_of front.now) table.new.items }
{
    zero_out(table);
    for task in 0..plan.tasks.as_slice().len() {
        raise_one(plan, standing, front, table, task as u32);
    }
}

/// What goes with each waiting task, after one was placed that was the parent of some.
pub(crate) fn keep_goes(
    plan: &Plan,
    standing: &Standing,
    front: &Front,
    table: &mut Vec<u64>,
    tasks: &[u32],
)
    requires set { IsSet plan.now standing.now front.now }
    requires rises { RisesFrom 0 tasks.now }
    requires in_range { (c : ℕ) → has tasks.now c ≡ true → c < count_tasks plan.now }
    requires long { length table.old.items ≡ count_tasks plan.now }
    requires small { (v : ℕ) → get_or table.old.items v 0 ≤ 2 ^ 62 }
    requires next { (v : ℕ) → is_done (progress standing.now) (front_of front.now) v ≡ false
        → goes plan.now (progress standing.now) (front_of front.now) v
        ≡ get_or table.old.items v 0 + sum_of
        (last_of plan.now (progress standing.now) (front_of front.now) v) tasks.now }
    ensures long { length table.new.items ≡ count_tasks plan.now }
    ensures goes { AreGoes plan.now (progress standing.now) (front_of front.now) table.new.items }
{
    raise_all(plan, standing, front, table, tasks);
}
