//! What a place holds once a task more is placed.

ghost use Rattle.std.specs.Prelude.{◌≡◌, ◌≤◌, ◌<◌, ◌+◌, ◌++◌, ◌∷◌, ◌^◌, [], ℕ, Decides, Some, length};
ghost use Rattle.storage_simulation.specs.code.Front.{IsSet, front_of};
ghost use Rattle.storage_simulation.specs.Goods.{places};
ghost use Rattle.storage_simulation.specs.code.Ordering.{IsOpen, progress};
ghost use Rattle.storage_simulation.specs.Ordering.{size};
ghost use Rattle.storage_simulation.specs.Usage.{usage};

use crate::change::{after_making, cleaned_at};
use crate::front::Front;
use crate::goods::cleaned_by;
use crate::standing::Standing;
use plan_core::Plan;
use values::TaskId;

/// What a place holds once a task more is placed.
pub(crate) fn used_after(
    plan: &Plan,
    standing: &Standing,
    front: &Front,
    task: TaskId,
    place: u32,
) -> u64
    requires set { IsSet plan.now standing.now front.now }
    requires opens { IsOpen plan.now (progress standing.now) (front_of front.now) task.0 }
    requires place { place < places plan.now }
    ensures { result ≡ usage plan.now (size (progress standing.now))
        (front_of front.now ++ task.0 ∷ []) place }
{
    let before = front.used(place);
    match cleaned_by(plan, task) {
        Some(good) => before - cleaned_at(plan, standing, place, task, good),
        None => after_making(plan, standing, place, task, before),
    }
}
