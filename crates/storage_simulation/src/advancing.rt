//! The steps of an order by an index.

ghost use Rattle.std.specs.Prelude.{◌≡◌, ◌<◌, ◌+◌, ◌++◌, ◌∷◌, [], ℕ, length};
ghost use Rattle.tournament_tree.specs.Tree.{entry};
ghost use Rattle.plan_core.specs.Words.{count_tasks};
ghost use Rattle.storage_simulation.specs.code.Choosing.{IsNext};
ghost use Rattle.storage_simulation.specs.code.Front.{IsSet, front_of};
ghost use Rattle.storage_simulation.specs.code.Index.{AreGoes, IsBestAt, IsIndex, IsIndexFor, IsKeyed, IsLaid, IsSettled, homes, ready_key, told};
ghost use Rattle.storage_simulation.specs.code.Ordering.{IsStep, progress};

use crate::choosing::{Next, refusal};
use crate::front::{Front, children_of};
use crate::goods::places;
use crate::index::Index;
use crate::keying::{set_best, set_key};
use crate::laying::lay;
use crate::placing::place;
use crate::refreshing::{rebest, rekey};
use crate::standing::Standing;
use crate::upkeep::{keep_goes, reset_goes};
use plan_core::Plan;
use values::TaskId;

/// Makes the key of each task.
fn key_all(plan: &Plan, standing: &Standing, front: &Front, index: &mut Index)
    requires set { IsSet plan.now standing.now front.now }
    requires laid { IsLaid plan.now (progress standing.now) index.old }
    requires goes { AreGoes plan.now (progress standing.now) (front_of front.now) index.old.goes.items }
    ensures laid { IsLaid plan.now (progress standing.now) index.new }
    ensures goes { AreGoes plan.now (progress standing.now) (front_of front.now) index.new.goes.items }
    ensures told { (u : ℕ) → u < count_tasks plan.now
        → told index.new u ≡ ready_key plan.now (progress standing.now) (front_of front.now) u }
{
    for task in 0..plan.tasks.as_slice().len() {
        set_key(plan, standing, front, index, task as u32);
    }
}

/// Makes the best key of each home.
fn best_all(plan: &Plan, standing: &Standing, front: &Front, index: &mut Index)
    requires set { IsSet plan.now standing.now front.now }
    requires laid { IsLaid plan.now (progress standing.now) index.old }
    requires told { (u : ℕ) → u < count_tasks plan.now
        → told index.old u ≡ ready_key plan.now (progress standing.now) (front_of front.now) u }
    ensures laid { IsLaid plan.now (progress standing.now) index.new }
    ensures settled { IsSettled index.old index.new }
    ensures bests { (h : ℕ) → h < homes plan.now
        → IsBestAt plan.now (progress standing.now) (front_of front.now) h
        (entry index.new.best.rows.items 0 h) }
{
    for home in 0..places(plan) + 2 {
        set_best(plan, standing, front, index, home as u32);
    }
}

/// Sets an index to a front.
pub(crate) fn index_front(plan: &Plan, standing: &Standing, front: &Front, index: &mut Index)
    requires set { IsSet plan.now standing.now front.now }
    requires made_for { IsIndexFor plan.now index.old }
    ensures { IsIndex plan.now (progress standing.now) (front_of front.now) index.new }
{
    lay(plan, standing, index);
    reset_goes(plan, standing, front, &mut index.goes);
    key_all(plan, standing, front, index);
    best_all(plan, standing, front, index);
}

/// Places a task, and keeps the index up.
pub(crate) fn advance(
    plan: &Plan,
    standing: &Standing,
    front: &mut Front,
    index: &mut Index,
    task: TaskId,
)
    requires set { IsSet plan.now standing.now front.old }
    requires step { IsStep plan.now (progress standing.now) (front_of front.old) task.0 }
    requires index { IsIndex plan.now (progress standing.now) (front_of front.old) index.old }
    ensures set { IsSet plan.now standing.now front.new }
    ensures placed { front_of front.new ≡ front_of front.old ++ task.0 ∷ [] }
    ensures index { IsIndex plan.now (progress standing.now) (front_of front.new) index.new }
{
    place(plan, standing, front, task);
    let children = children_of(&front.graph, task);
    keep_goes(plan, standing, front, &mut index.goes, children);
    rekey(plan, standing, front, index, task.0, children);
    rebest(plan, standing, front, index, task.0, children);
}

/// Which task is placed next.
pub(crate) fn next_by_index(plan: &Plan, standing: &Standing, front: &Front, index: &Index) -> Next
    requires set { IsSet plan.now standing.now front.now }
    requires index { IsIndex plan.now (progress standing.now) (front_of front.now) index.now }
    ensures { IsNext plan.now (progress standing.now) (front_of front.now) result }
{
    match index.best.least_between(0, places(plan) + 2) {
        Some(key) => Next::Place(TaskId(key.number)),
        None => refusal(plan, standing, front),
    }
}
