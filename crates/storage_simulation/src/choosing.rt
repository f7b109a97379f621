//! Which tasks are ready, and the refusal where none of them fits.

ghost use Rattle.std.specs.Prelude.{◌≡◌, ◌≤◌, ◌<◌, ◌+◌, ◌^◌, ℕ, Decides, IfSome, MatchOption, None, Some, false, length, true};
ghost use Rattle.plan_core.specs.Words.{count_tasks, is_clean};
ghost use Rattle.storage_simulation.specs.code.Front.{IsSet, front_of};
ghost use Rattle.storage_simulation.specs.code.Choosing.{IsNext};
ghost use Rattle.storage_simulation.specs.code.Ordering.{IsFitting, IsOpen, progress};

use crate::fitting::Exceeds;
use crate::front::Front;
use crate::goods::{place_bound, place_of};
use crate::room::used_after;
use crate::standing::Standing;
use plan_core::Plan;
use values::{SiteId, TaskId};

/// What comes next: a task, the end, or no task that fits.
#[derive(Clone, Copy)]
pub enum Next {
    Place(TaskId),
    Done,
    Stuck(Exceeds),
}

/// Whether a task waits and its parents don't.
#[tactic(auto, using(crate::proofs::ChoosingLemmas::open_of, crate::proofs::ChoosingLemmas::of_open))]
pub(crate) fn is_open(plan: &Plan, standing: &Standing, front: &Front, task: TaskId) -> bool
    requires set { IsSet plan.now standing.now front.now }
    requires in_range { task.0 < count_tasks plan.now }
    ensures { Decides result (IsOpen plan.now (progress standing.now) (front_of front.now) task.0) }
{
    let (_plan, _standing) = (plan, standing);
    !front.is_done(task.0) && front.missing(task.0) == 0
}

/// The lowest ready task.
fn lowest_open(plan: &Plan, standing: &Standing, front: &Front) -> Option<TaskId>
    requires set { IsSet plan.now standing.now front.now }
    ensures { MatchOption result ((u : ℕ) → IsOpen plan.now (progress standing.now) (front_of front.now) u
        → ⊥) (λ t. IsOpen plan.now (progress standing.now) (front_of front.now) t.0
        × ((u : ℕ) → u < t.0 → IsOpen plan.now (progress standing.now) (front_of front.now) u → ⊥)) }
{
    for number in 0..plan.tasks.as_slice().len() {
        let task = TaskId(number as u32);
        if is_open(plan, standing, front, task) {
            return Some(task);
        }
    }
    None
}

/// What comes next if no Clean is ready and no ready task fits.
pub(crate) fn refusal(plan: &Plan, standing: &Standing, front: &Front) -> Next
    requires set { IsSet plan.now standing.now front.now }
    requires no_clean { (u : ℕ) → IsOpen plan.now (progress standing.now) (front_of front.now) u
        → is_clean plan.now u ≡ false }
    requires none_fits { (u : ℕ) → IsOpen plan.now (progress standing.now) (front_of front.now) u
        → IsFitting plan.now (progress standing.now) (front_of front.now) u → ⊥ }
    ensures { IsNext plan.now (progress standing.now) (front_of front.now) result }
{
    match lowest_open(plan, standing, front) {
        None => Next::Done,
        Some(task) => match place_of(plan, task) {
            Some(place) => Next::Stuck(Exceeds {
                site: SiteId(place),
                task,
                needed: used_after(plan, standing, front, task, place),
                bound: place_bound(plan, place),
            }),
            None => Next::Done,
        },
    }
}
