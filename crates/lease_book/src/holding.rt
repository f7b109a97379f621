//! What one event changes in a standing.

ghost use Rattle.std.specs.Prelude.{◌≡◌, ◌≤◌, ◌<◌, ◌+◌, ℕ, cond, length};
ghost use Rattle.plan_core.specs.Numbers.{has};
ghost use Rattle.plan_core.specs.Words.{cleans, count_pairs, count_tasks};
ghost use Rattle.storage_simulation.specs.declared.standing.Held.TheVariants.{Nothing, Stored};
ghost use Rattle.storage_simulation.specs.declared.standing.Phase.TheVariants.{Ended, Runs, Waits};
ghost use Rattle.storage_simulation.specs.code.Goods.{IsWithinLimits};
ghost use Rattle.storage_simulation.specs.Goods.{makes};
ghost use Rattle.storage_simulation.specs.code.Standings.{held_of, phase_of};
ghost use Rattle.lease_rules.specs.code.Law.{HasStorageLaws};
ghost use Rattle.lease_book.specs.RunState.{HasLengths};
ghost use Rattle.lease_rules.specs.State.{put, reserved_for, stored_among};

use crate::goods::{count_made, made_at};
use crate::items;
use plan_core::Plan;
use std::alloc::Global;
use storage_simulation::{Held, Phase, Standing, cleaned_by, good_size};
use values::TaskId;

/// Sets how far a task is.
#[tactic(auto, using(crate::proofs::ArrayLemmas::at_set))]
fn set_phase(alloc: Global, standing: &mut Standing, task: u32, phase: Phase)
    requires { task < length standing.old.tasks }
    ensures phase { (t : ℕ) → phase_of standing.new t ≡ put (phase_of standing.old) task phase t }
    ensures held { held_of standing.new ≡ held_of standing.old }
    ensures pairs { length standing.new.held ≡ length standing.old.held }
    ensures tasks { length standing.new.tasks ≡ length standing.old.tasks }
    ensures deliveries { length standing.new.deliveries ≡ length standing.old.deliveries }
{
    items::put(alloc, &mut standing.tasks, task as usize, phase);
}

/// Sets what is held of a good.
fn set_held(alloc: Global, standing: &mut Standing, good: u32, held: Held)
    requires { good < length standing.old.held + length standing.old.deliveries }
    ensures held { (g : ℕ) → held_of standing.new g ≡ put (held_of standing.old) good held g }
    ensures phase { phase_of standing.new ≡ phase_of standing.old }
    ensures pairs { length standing.new.held ≡ length standing.old.held }
    ensures tasks { length standing.new.tasks ≡ length standing.old.tasks }
    ensures deliveries { length standing.new.deliveries ≡ length standing.old.deliveries }
{
    let pairs = standing.held.as_slice().len();
    if (good as usize) < pairs {
        items::put(alloc, &mut standing.held, good as usize, held);
    } else {
        items::put(alloc, &mut standing.deliveries, good as usize - pairs, held);
    }
}

/// Reserves what a task makes at its declared sizes.
fn reserve(alloc: Global, plan: &Plan, standing: &mut Standing, task: u32)
    requires limits { IsWithinLimits plan.now }
    requires laws { HasStorageLaws plan.now }
    requires long { HasLengths plan.now standing.old }
    ensures held { (g : ℕ) → held_of standing.new g ≡ reserved_for plan.now task (held_of standing.old) g }
    ensures phase { phase_of standing.new ≡ phase_of standing.old }
    ensures long { HasLengths plan.now standing.new }
{
    for k in 0..count_made(plan, TaskId(task)) {
        let good = made_at(plan, TaskId(task), k);
        set_held(alloc, standing, good, Held::Reserved(good_size(plan, good)));
    }
}

/// Stores what a Transfer makes, at one size.
fn store(alloc: Global, plan: &Plan, standing: &mut Standing, task: u32, size: u64)
    requires limits { IsWithinLimits plan.now }
    requires laws { HasStorageLaws plan.now }
    requires long { HasLengths plan.now standing.old }
    ensures held { (g : ℕ) → held_of standing.new g
        ≡ cond (has (makes plan.now task) g) (Stored size) (held_of standing.old g) }
    ensures phase { phase_of standing.new ≡ phase_of standing.old }
    ensures long { HasLengths plan.now standing.new }
{
    for k in 0..count_made(plan, TaskId(task)) {
        let good = made_at(plan, TaskId(task), k);
        set_held(alloc, standing, good, Held::Stored(size));
    }
}

/// Stores what a Run makes, each at its own size.
fn store_each(alloc: Global, plan: &Plan, standing: &mut Standing, task: u32, sizes: &[u64])
    requires limits { IsWithinLimits plan.now }
    requires laws { HasStorageLaws plan.now }
    requires long { HasLengths plan.now standing.old }
    requires sizes { length sizes.now ≡ length (makes plan.now task) }
    ensures held { (g : ℕ) → held_of standing.new g
        ≡ stored_among (makes plan.now task) sizes.now g (held_of standing.old g) }
    ensures phase { phase_of standing.new ≡ phase_of standing.old }
    ensures long { HasLengths plan.now standing.new }
{
    let mut k = count_made(plan, TaskId(task));
    while k > 0 {
        k -= 1;
        let good = made_at(plan, TaskId(task), k);
        set_held(alloc, standing, good, Held::Stored(sizes[k]));
    }
}

/// Gives up the good that a Clean cleans.
fn sweep(alloc: Global, plan: &Plan, standing: &mut Standing, task: u32)
    requires laws { HasStorageLaws plan.now }
    requires long { HasLengths plan.now standing.old }
    ensures held { (g : ℕ) → held_of standing.new g
        ≡ cond (cleans plan.now task g) Nothing (held_of standing.old g) }
    ensures phase { phase_of standing.new ≡ phase_of standing.old }
    ensures long { HasLengths plan.now standing.new }
{
    if let Some(good) = cleaned_by(plan, TaskId(task)) {
        set_held(alloc, standing, good, Held::Nothing);
    }
}

/// A task starts.
pub(crate) fn start(alloc: Global, plan: &Plan, standing: &mut Standing, task: u32)
    requires limits { IsWithinLimits plan.now }
    requires laws { HasStorageLaws plan.now }
    requires long { HasLengths plan.now standing.old }
    requires task { task < count_tasks plan.now }
    ensures phase { (t : ℕ) → phase_of standing.new t ≡ put (phase_of standing.old) task Runs t }
    ensures held { (g : ℕ) → held_of standing.new g ≡ reserved_for plan.now task (held_of standing.old) g }
    ensures long { HasLengths plan.now standing.new }
{
    set_phase(alloc, standing, task, Phase::Runs);
    reserve(alloc, plan, standing, task);
}

/// A task waits again.
pub(crate) fn wait_again(alloc: Global, plan: &Plan, standing: &mut Standing, task: u32)
    requires long { HasLengths plan.now standing.old }
    requires task { task < count_tasks plan.now }
    ensures phase { (t : ℕ) → phase_of standing.new t ≡ put (phase_of standing.old) task Waits t }
    ensures held { (g : ℕ) → held_of standing.new g ≡ held_of standing.old g }
    ensures long { HasLengths plan.now standing.new }
{
    let _ = plan;
    set_phase(alloc, standing, task, Phase::Waits);
}

/// A Transfer arrives.
pub(crate) fn arrive(alloc: Global, plan: &Plan, standing: &mut Standing, task: u32, size: u64)
    requires limits { IsWithinLimits plan.now }
    requires laws { HasStorageLaws plan.now }
    requires long { HasLengths plan.now standing.old }
    requires task { task < count_tasks plan.now }
    ensures phase { (t : ℕ) → phase_of standing.new t ≡ put (phase_of standing.old) task Ended t }
    ensures held { (g : ℕ) → held_of standing.new g
        ≡ cond (has (makes plan.now task) g) (Stored size) (held_of standing.old g) }
    ensures long { HasLengths plan.now standing.new }
{
    set_phase(alloc, standing, task, Phase::Ended);
    store(alloc, plan, standing, task, size);
}

/// A Run ends.
pub(crate) fn end(alloc: Global, plan: &Plan, standing: &mut Standing, task: u32, sizes: &[u64])
    requires limits { IsWithinLimits plan.now }
    requires laws { HasStorageLaws plan.now }
    requires long { HasLengths plan.now standing.old }
    requires task { task < count_tasks plan.now }
    requires sizes { length sizes.now ≡ length (makes plan.now task) }
    ensures phase { (t : ℕ) → phase_of standing.new t ≡ put (phase_of standing.old) task Ended t }
    ensures held { (g : ℕ) → held_of standing.new g
        ≡ stored_among (makes plan.now task) sizes.now g (held_of standing.old g) }
    ensures long { HasLengths plan.now standing.new }
{
    set_phase(alloc, standing, task, Phase::Ended);
    store_each(alloc, plan, standing, task, sizes);
}

/// A Clean is done.
pub(crate) fn clean(alloc: Global, plan: &Plan, standing: &mut Standing, task: u32)
    requires laws { HasStorageLaws plan.now }
    requires long { HasLengths plan.now standing.old }
    requires task { task < count_tasks plan.now }
    ensures phase { (t : ℕ) → phase_of standing.new t ≡ put (phase_of standing.old) task Ended t }
    ensures held { (g : ℕ) → held_of standing.new g
        ≡ cond (cleans plan.now task g) Nothing (held_of standing.old g) }
    ensures long { HasLengths plan.now standing.new }
{
    set_phase(alloc, standing, task, Phase::Ended);
    sweep(alloc, plan, standing, task);
}
