//! What becomes of a front once a task more is placed.

ghost use Rattle.std.specs.Prelude.{◌≡◌, ◌≤◌, ◌<◌, ◌+◌, ◌++◌, ◌∷◌, [], ℕ, IfSome, cond, get_or, length, true};
ghost use Rattle.plan_core.specs.code.Numbers.{RisesFrom};
ghost use Rattle.plan_core.specs.Numbers.{has};
ghost use Rattle.storage_simulation.specs.code.Front.{IsSet, front_of};
ghost use Rattle.storage_simulation.specs.code.Ordering.{IsOpen, IsStep, progress};
ghost use Rattle.storage_simulation.specs.code.Placing.{IsChange, changed, raised};

use crate::front::{Front, children_of};
use crate::goods::place_of;
use crate::room::used_after;
use crate::standing::Standing;
use plan_core::Plan;
use values::TaskId;

/// What a place holds once a task is placed.
#[derive(Clone, Copy)]
struct Change {
    place: u32,
    used: u64,
}

/// The usage that changes with a task.
fn change_of(plan: &Plan, standing: &Standing, front: &Front, task: TaskId) -> Option<Change>
    requires set { IsSet plan.now standing.now front.now }
    requires opens { IsOpen plan.now (progress standing.now) (front_of front.now) task.0 }
    ensures { IsChange plan.now (progress standing.now) (front_of front.now) task.0 result }
{
    match place_of(plan, task) {
        Some(place) => Some(Change {
            place,
            used: used_after(plan, standing, front, task, place),
        }),
        None => None,
    }
}

/// Writes the usage that changes.
fn settle(used: &mut Vec<u64>, change: Option<Change>)
    requires { IfSome change (λ c. c.place < length used.old.items) }
    ensures long { length used.new.items ≡ length used.old.items }
    ensures each { (s : ℕ) → get_or used.new.items s 0 ≡ changed change s (get_or used.old.items s 0) }
{
    if let Some(change) = change {
        used[change.place as usize] = change.used;
    }
}

/// Writes the peak that rises.
fn raise(peaks: &mut Vec<u64>, change: Option<Change>)
    requires { IfSome change (λ c. c.place < length peaks.old.items) }
    ensures long { length peaks.new.items ≡ length peaks.old.items }
    ensures each { (s : ℕ) → get_or peaks.new.items s 0 ≡ raised change s (get_or peaks.old.items s 0) }
{
    if let Some(change) = change {
        let place = change.place as usize;
        if peaks[place] < change.used {
            peaks[place] = change.used;
        }
    }
}

/// One parent less for each of some tasks.
pub fn count_down(counts: &mut Vec<u32>, tasks: &[u32])
    requires rises { RisesFrom 0 tasks.now }
    requires in_range { (c : ℕ) → has tasks.now c ≡ true → c < length counts.old.items }
    requires enough { (c : ℕ) → has tasks.now c ≡ true → 0 < get_or counts.old.items c 0 }
    ensures long { length counts.new.items ≡ length counts.old.items }
    ensures each { (c : ℕ) → get_or counts.new.items c 0 + cond (has tasks.now c) 1 0
        ≡ get_or counts.old.items c 0 }
{
    for task in tasks {
        counts[*task as usize] -= 1;
    }
}

/// Places a task. The front has room for each task.
pub(crate) fn place(plan: &Plan, standing: &Standing, front: &mut Front, task: TaskId)
    requires set { IsSet plan.now standing.now front.old }
    requires step { IsStep plan.now (progress standing.now) (front_of front.old) task.0 }
    ensures set { IsSet plan.now standing.now front.new }
    ensures placed { front_of front.new ≡ front_of front.old ++ task.0 ∷ [] }
{
    let change = change_of(plan, standing, front, task);
    front.placed.push_reserved(task);
    front.done[task.0 as usize] = true;
    count_down(&mut front.missing, children_of(&front.graph, task));
    settle(&mut front.used, change);
    raise(&mut front.peaks, change);
}
