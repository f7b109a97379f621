//! An index that is kept up as tasks are placed.

ghost use Rattle.std.specs.Prelude.{◌≡◌, ◌≢◌, ◌≤◌, ◌<◌, ◌+◌, ◌++◌, ◌==◌, ◌∷◌, ◌^◌, [], ℕ, Some, length, true};
ghost use Rattle.tournament_tree.specs.Tree.{entry};
ghost use Rattle.plan_core.specs.code.Numbers.{RisesFrom};
ghost use Rattle.plan_core.specs.Numbers.{has};
ghost use Rattle.plan_core.specs.Words.{count_tasks};
ghost use Rattle.storage_simulation.specs.code.Front.{IsSet, front_of};
ghost use Rattle.storage_simulation.specs.code.Goods.{place};
ghost use Rattle.storage_simulation.specs.code.Index.{AreBestsBut, AreGoes, AreOwnBests, IsApart, IsAway, IsBestAt, IsIndex, IsIndexFor, IsKeyed, IsLaid, IsSettled, IsToldBut, home, homes, ready_key, told};
ghost use Rattle.storage_simulation.specs.code.Ordering.{IsStep, progress};

use crate::front::{Front, children_of};
use crate::goods::{place_of, places};
use crate::index::Index;
use crate::keying::{set_best, set_key};
use crate::laying::{home_of, lay};
use crate::placing::place;
use crate::standing::Standing;
use crate::upkeep::{keep_goes, last_parent, reset_goes};
use plan_core::Plan;
use values::TaskId;

/// Makes anew what a task's placed parent changes: its own key where it is ready, or that of its last parent.
fn touch(plan: &Plan, standing: &Standing, front: &Front, index: &mut Index, task: u32)
    requires set { IsSet plan.now standing.now front.now }
    requires in_range { task < count_tasks plan.now }
    requires laid { IsLaid plan.now (progress standing.now) index.old }
    requires goes { AreGoes plan.now (progress standing.now) (front_of front.now) index.old.goes.items }
    ensures laid { IsLaid plan.now (progress standing.now) index.new }
    ensures keyed { IsKeyed index.old index.new }
    ensures told { IsToldBut plan.now (progress standing.now) (front_of front.now) index.old index.new
        (λ c. c == task) }
{
    let missing = front.missing(task);
    if missing == 0 {
        set_key(plan, standing, front, index, task);
    } else if missing == 1 {
        let last = last_parent(plan, standing, front, task);
        set_key(plan, standing, front, index, last);
    }
}

fn touch_all(plan: &Plan, standing: &Standing, front: &Front, index: &mut Index, tasks: &[u32])
    requires set { IsSet plan.now standing.now front.now }
    requires in_range { (c : ℕ) → has tasks.now c ≡ true → c < count_tasks plan.now }
    requires laid { IsLaid plan.now (progress standing.now) index.old }
    requires goes { AreGoes plan.now (progress standing.now) (front_of front.now) index.old.goes.items }
    ensures laid { IsLaid plan.now (progress standing.now) index.new }
    ensures keyed { IsKeyed index.old index.new }
    ensures told { IsToldBut plan.now (progress standing.now) (front_of front.now) index.old index.new
        (has tasks.now) }
{
    for task in tasks {
        touch(plan, standing, front, index, *task);
    }
}

/// Makes anew the best keys of the homes where a task's placed parent changes keys.
fn settle(plan: &Plan, standing: &Standing, front: &Front, index: &mut Index, task: u32)
    requires set { IsSet plan.now standing.now front.now }
    requires in_range { task < count_tasks plan.now }
    requires laid { IsLaid plan.now (progress standing.now) index.old }
    requires told { (u : ℕ) → u < count_tasks plan.now
        → told index.old u ≡ ready_key plan.now (progress standing.now) (front_of front.now) u }
    ensures laid { IsLaid plan.now (progress standing.now) index.new }
    ensures settled { IsSettled index.old index.new }
    ensures bests { AreBestsBut plan.now (progress standing.now) (front_of front.now) index.old index.new
        (λ c. c == task) }
{
    let missing = front.missing(task);
    if missing == 0 {
        set_best(plan, standing, front, index, home_of(plan, TaskId(task)));
    } else if missing == 1 {
        let last = last_parent(plan, standing, front, task);
        set_best(plan, standing, front, index, home_of(plan, TaskId(last)));
    }
}

fn settle_all(plan: &Plan, standing: &Standing, front: &Front, index: &mut Index, tasks: &[u32])
    requires set { IsSet plan.now standing.now front.now }
    requires in_range { (c : ℕ) → has tasks.now c ≡ true → c < count_tasks plan.now }
    requires laid { IsLaid plan.now (progress standing.now) index.old }
    requires told { (u : ℕ) → u < count_tasks plan.now
        → told index.old u ≡ ready_key plan.now (progress standing.now) (front_of front.now) u }
    ensures laid { IsLaid plan.now (progress standing.now) index.new }
    ensures settled { IsSettled index.old index.new }
    ensures bests { AreBestsBut plan.now (progress standing.now) (front_of front.now) index.old index.new
        (has tasks.now) }
{
    for task in tasks {
        settle(plan, standing, front, index, *task);
    }
}

/// Makes anew the keys that a placed task changes, those of its children and of their last parents among them.
pub(crate) fn rekey(
    plan: &Plan,
    standing: &Standing,
    front: &Front,
    index: &mut Index,
    task: u32,
    children: &[u32],
)
    requires set { IsSet plan.now standing.now front.now }
    requires in_range { task < count_tasks plan.now }
    requires children { (c : ℕ) → has children.now c ≡ true → c < count_tasks plan.now }
    requires laid { IsLaid plan.now (progress standing.now) index.old }
    requires goes { AreGoes plan.now (progress standing.now) (front_of front.now) index.old.goes.items }
    requires kept { (u : ℕ) → u < count_tasks plan.now → u ≢ task
        → ((c : ℕ) → has children.now c ≡ true
        → IsApart plan.now (progress standing.now) (front_of front.now) c u)
        → told index.old u ≡ ready_key plan.now (progress standing.now) (front_of front.now) u }
    ensures laid { IsLaid plan.now (progress standing.now) index.new }
    ensures keyed { IsKeyed index.old index.new }
    ensures told { (u : ℕ) → u < count_tasks plan.now
        → told index.new u ≡ ready_key plan.now (progress standing.now) (front_of front.now) u }
{
    set_key(plan, standing, front, index, task);
    touch_all(plan, standing, front, index, children);
}

/// Makes anew the best keys of a task's home and of its place.
fn set_own(plan: &Plan, standing: &Standing, front: &Front, index: &mut Index, task: u32)
    requires set { IsSet plan.now standing.now front.now }
    requires laid { IsLaid plan.now (progress standing.now) index.old }
    requires told { (u : ℕ) → u < count_tasks plan.now
        → told index.old u ≡ ready_key plan.now (progress standing.now) (front_of front.now) u }
    ensures laid { IsLaid plan.now (progress standing.now) index.new }
    ensures settled { IsSettled index.old index.new }
    ensures bests { AreOwnBests plan.now (progress standing.now)
        (front_of front.now) index.old index.new task }
{
    set_best(plan, standing, front, index, home_of(plan, TaskId(task)));
    match place_of(plan, TaskId(task)) {
        Some(place) => set_best(plan, standing, front, index, place),
        None => {}
    }
}

/// Makes anew the best keys that a placed task changes, those of its home and its place among them.
pub(crate) fn rebest(
    plan: &Plan,
    standing: &Standing,
    front: &Front,
    index: &mut Index,
    task: u32,
    children: &[u32],
)
    requires set { IsSet plan.now standing.now front.now }
    requires in_range { task < count_tasks plan.now }
    requires children { (c : ℕ) → has children.now c ≡ true → c < count_tasks plan.now }
    requires laid { IsLaid plan.now (progress standing.now) index.old }
    requires told { (u : ℕ) → u < count_tasks plan.now
        → told index.old u ≡ ready_key plan.now (progress standing.now) (front_of front.now) u }
    requires kept { (h : ℕ) → h < homes plan.now → h ≢ home plan.now task
        → (place plan.now task ≡ Some h → ⊥)
        → ((c : ℕ) → has children.now c ≡ true
        → IsAway plan.now (progress standing.now) (front_of front.now) c h)
        → IsBestAt plan.now (progress standing.now) (front_of front.now) h
        (entry index.old.best.rows.items 0 h) }
    ensures laid { IsLaid plan.now (progress standing.now) index.new }
    ensures settled { IsSettled index.old index.new }
    ensures bests { (h : ℕ) → h < homes plan.now
        → IsBestAt plan.now (progress standing.now) (front_of front.now) h
        (entry index.new.best.rows.items 0 h) }
{
    set_own(plan, standing, front, index, task);
    settle_all(plan, standing, front, index, children);
}
