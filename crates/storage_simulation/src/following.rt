//! Whether a list of tasks is an order in which each task comes after its parents.

ghost use Rattle.std.specs.Prelude.{◌≡◌, ◌<◌, ◌+◌, ◌==◌, ◌||◌, ℕ, Decides, IfOk, [], get_or, length, not, take, true};
ghost use Rattle.std.specs.List.{list_all};
ghost use Rattle.values.specs.declared.numbers.TaskId.{TaskId};
ghost use Rattle.plan_core.specs.Words.{count_tasks, parents, task_numbers};
ghost use Rattle.storage_simulation.specs.code.Following.{AreMarked, Follows, is_marked, may_come, may_follow};
ghost use Rattle.storage_simulation.specs.code.Standings.{phase_of};
ghost use Rattle.storage_simulation.specs.Standings.{waits};

use crate::standing::Standing;
use plan_core::Plan;
use std::alloc::Global;
use values::{Memory, TaskId};

/// Whether a task has a mark.
fn is_marked(marks: &[bool], task: TaskId) -> bool
    ensures { result ≡ is_marked marks.now task.0 }
{
    match marks.get(task.0 as usize) {
        Some(mark) => *mark,
        None => false,
    }
}

fn none_missing(standing: &Standing, marks: &[bool], parents: &[TaskId]) -> bool
    ensures { result ≡ list_all (λ (u : TaskId). not (waits (phase_of standing.now u.0))
        || is_marked marks.now u.0) parents.now }
{
    parents.iter().all(|parent| !standing.waits(*parent) || is_marked(marks, *parent))
}

/// Whether each parent of a task that waits has a mark.
#[tactic(auto, using(crate::proofs::NumbersLemmas::all_tasks))]
fn is_ready(plan: &Plan, standing: &Standing, marks: &[bool], task: TaskId) -> bool
    ensures { result ≡ list_all (λ u. not (waits (phase_of standing.now u)) || is_marked marks.now u)
        (parents plan.now task.0) }
{
    none_missing(standing, marks, plan.parents(task))
}

/// Whether a task may come after those with a mark.
fn may_come(plan: &Plan, standing: &Standing, marks: &[bool], task: TaskId) -> bool
    ensures { result ≡ may_come plan.now (phase_of standing.now) marks.now task.0 }
{
    let inside = (task.0 as usize) < plan.tasks.as_slice().len();
    let waiting = standing.waits(task);
    let marked = is_marked(marks, task);
    let ready = is_ready(plan, standing, marks, task);
    inside && (waiting && (!marked && ready))
}

/// Sets the mark of a task.
#[tactic(auto, using(crate::proofs::MarksLemmas::mark_more))]
fn mark(marks: &mut Vec<bool>, task: TaskId)
    requires { task.0 < length marks.old.items }
    ensures long { length marks.new.items ≡ length marks.old.items }
    ensures each { (t : ℕ) → is_marked marks.new.items t ≡ ((task.0 == t) || is_marked marks.old.items t) }
{
    marks[task.0 as usize] = true;
}

/// Whether the task at a position may come after those before it, which have their marks; it gets its own.
fn comes_next(
    plan: &Plan,
    standing: &Standing,
    marks: &mut Vec<bool>,
    order: &[TaskId],
    k: usize,
) -> bool
    requires within { k < length order.now }
    requires long { length marks.old.items ≡ count_tasks plan.now }
    requires marked { AreMarked marks.old.items (take k (task_numbers order.now)) }
    ensures value { result ≡ may_follow plan.now (phase_of standing.now) (take k (task_numbers order.now))
        (get_or (task_numbers order.now) k 0) }
    ensures long { length marks.new.items ≡ count_tasks plan.now }
    ensures marked { result ≡ true → AreMarked marks.new.items (take (k + 1) (task_numbers order.now)) }
{
    let task = order[k];
    if !may_come(plan, standing, marks, task) {
        return false;
    }
    mark(marks, task);
    true
}

/// A list without marks.
fn no_marks(alloc: Global, plan: &Plan) -> Result<Vec<bool>, Memory>
    ensures long { IfOk result (λ marks. length marks.items ≡ count_tasks plan.now) }
    ensures marked { IfOk result (λ marks. AreMarked marks.items []) }
{
    Ok(vec![in alloc; false; plan.tasks.as_slice().len()]?)
}

/// Whether the list is an order whose tasks' parents stand before them, run or have ended.
pub fn follows(
    alloc: Global,
    plan: &Plan,
    standing: &Standing,
    order: &[TaskId],
) -> Result<bool, Memory>
    ensures { IfOk result (λ b. Decides b (Follows plan.now (phase_of standing.now)
        (task_numbers order.now))) }
{
    let mut marks = no_marks(alloc, plan)?;
    for k in 0..order.len() {
        if !comes_next(plan, standing, &mut marks, order, k) {
            return Ok(false);
        }
    }
    Ok(true)
}
