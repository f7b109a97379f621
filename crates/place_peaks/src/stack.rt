//! The stack of the tasks that wait again.

ghost use Rattle.std.specs.Prelude.{◌≡◌, ◌<◌, ◌-◌, ◌∷◌, [], length, slice_get, Some, MatchOption, vec_capacity};
ghost use Rattle.plan_core.specs.Words.{task_numbers};
ghost use Rattle.place_peaks.specs.Stack.{IsFirstOf, stacked};

use crate::choosing::task_at;
use values::TaskId;

/// The last task of a stack, which is the first of rest.
pub(crate) fn last_of(stack: &[TaskId]) -> Option<u32>
    ensures { MatchOption result (stack.now ≡ [])
        (λ t. slice_get (task_numbers stack.now) (length (task_numbers stack.now) - 1) ≡ Some t) }
{
    if stack.is_empty() {
        return None;
    }
    Some(task_at(stack, stack.len() - 1))
}

/// Takes the first task off.
pub(crate) fn pop(stack: &mut Vec<TaskId>, task: u32)
    requires { IsFirstOf (stacked (task_numbers stack.old.items) []) task }
    ensures stack { stacked (task_numbers stack.old.items) []
        ≡ task ∷ stacked (task_numbers stack.new.items) [] }
    ensures room { vec_capacity stack.new ≡ vec_capacity stack.old }
{
    let _ = task;
    let _popped = stack.pop();
}

/// Puts a task on it.
#[tactic(auto, using(crate::proofs::StackLemmas::pushed))]
pub(crate) fn push(stack: &mut Vec<TaskId>, task: u32)
    requires { length stack.old.items < vec_capacity stack.old }
    ensures stack { stacked (task_numbers stack.new.items) []
        ≡ task ∷ stacked (task_numbers stack.old.items) [] }
    ensures room { vec_capacity stack.new ≡ vec_capacity stack.old }
{
    stack.push_reserved(TaskId(task));
}
