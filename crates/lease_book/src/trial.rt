//! The start of a task, tried in room that was taken before.

ghost use Rattle.std.specs.Prelude.{◌≡◌, ◌<◌, [], ℕ, Decides, IfOk};
ghost use Rattle.plan_core.specs.Words.{count_tasks};
ghost use Rattle.storage_simulation.specs.code.Goods.{IsWithinLimits};
ghost use Rattle.storage_simulation.specs.code.Standings.{IsStanding, held_of, phase_of};
ghost use Rattle.storage_simulation.specs.Standings.{sizes};
ghost use Rattle.storage_simulation.specs.Usage.{IsWithin};
ghost use Rattle.lease_rules.specs.code.Law.{HasStorageLaws};
ghost use Rattle.lease_book.specs.RunState.{HasRoom, state_of};
ghost use Rattle.lease_rules.specs.Choice.{start_event};
ghost use Rattle.lease_rules.specs.State.{held_after, phase_after};
ghost use Rattle.lease_book.specs.Trial.{HasPlace, IsTrial};

use crate::state::RunState;
use crate::{holding, items};
use plan_core::Plan;
use std::alloc::Global;
use storage_simulation::{Standing, place_bound, places, usage_after};
use values::{Memory, SiteId, TaskId};

/// A standing in which the start of a task is tried.
#[derive(Drop)]
pub struct Trial {
    alloc: Global,
    pub(crate) standing: Standing,
}

/// Whether each place is within its bound.
pub(crate) fn is_within(plan: &Plan, standing: &Standing) -> bool
    requires limits { IsWithinLimits plan.now }
    requires standing { IsStanding plan.now standing.now }
    ensures { Decides result (IsWithin plan.now (sizes (held_of standing.now)) []) }
{
    for place in 0..places(plan) {
        let used = usage_after(plan, standing, &[], SiteId(place as u32));
        if used > place_bound(plan, place as u32) {
            return false;
        }
    }
    true
}

impl Trial {
    /// Room for a plan's tasks and goods.
    pub(crate) fn new(alloc: Global, plan: &Plan) -> Result<Trial, Memory>
        ensures { IfOk result (λ x. HasPlace plan.now x) }
    {
        Ok(Trial {
            alloc,
            standing: Standing::start(alloc, plan)?,
        })
    }

    /// Takes over what is held and how far each task is.
    fn copy(&mut self, plan: &Plan, state: &RunState)
        requires state { HasRoom plan.now state.now }
        requires place { HasPlace plan.now self.old }
        ensures standing { self.new.standing ≡ state.now.standing }
    {
        let _ = plan;
        items::overwrite(
            self.alloc,
            &mut self.standing.held,
            state.standing.held.as_slice(),
        );
        items::overwrite(
            self.alloc,
            &mut self.standing.tasks,
            state.standing.tasks.as_slice(),
        );
        items::overwrite(
            self.alloc,
            &mut self.standing.deliveries,
            state.standing.deliveries.as_slice(),
        );
    }

    /// Starts a task of rest, or does it where it is a Clean.
    fn start(&mut self, plan: &Plan, task: u32)
        requires limits { IsWithinLimits plan.now }
        requires laws { HasStorageLaws plan.now }
        requires place { HasPlace plan.now self.old }
        requires task { task < count_tasks plan.now }
        ensures phase { (u : ℕ) → phase_of self.new.standing u
            ≡ phase_after (start_event plan.now 0 task) (phase_of self.old.standing) u }
        ensures held { (g : ℕ) → held_of self.new.standing g
            ≡ held_after plan.now (start_event plan.now 0 task) (held_of self.old.standing) g }
        ensures place { HasPlace plan.now self.new }
    {
        if plan.is_clean(TaskId(task)) {
            holding::clean(self.alloc, plan, &mut self.standing, task);
        } else {
            holding::start(self.alloc, plan, &mut self.standing, task);
        }
    }

    /// Tries the start of a task of rest from a state.
    pub(crate) fn begin(&mut self, plan: &Plan, state: &RunState, task: u32)
        requires limits { IsWithinLimits plan.now }
        requires laws { HasStorageLaws plan.now }
        requires state { HasRoom plan.now state.now }
        requires place { HasPlace plan.now self.old }
        requires task { task < count_tasks plan.now }
        ensures tried { IsTrial plan.now (state_of state.now) task self.new }
        ensures place { HasPlace plan.now self.new }
    {
        self.copy(plan, state);
        self.start(plan, task);
    }
}
