//! The Choice of a record, and with which tasks a fresh order may begin.

ghost use Rattle.std.specs.Prelude.{◌≡◌, true, false, MatchOption, Decides};
ghost use Rattle.std.specs.List.{list_all};
ghost use Rattle.values.specs.declared.numbers.TaskId.{TaskId};
ghost use Rattle.plan_core.specs.Numbers.{has};
ghost use Rattle.plan_core.specs.Words.{parents};
ghost use Rattle.storage_simulation.specs.code.Goods.{IsWithinLimits};
ghost use Rattle.storage_simulation.specs.code.Standings.{phase_of};
ghost use Rattle.lease_rules.specs.Choice.{HasNoChoice, IsCandidate, IsChoice};
ghost use Rattle.lease_rules.specs.code.Law.{HasStorageLaws, IsSoundState};
ghost use Rattle.lease_book.specs.RunState.{HasPeaks, HasRoom, state_of};
ghost use Rattle.lease_rules.specs.State.{ended};
ghost use Rattle.lease_book.specs.Trial.{HasPlace, IsTrialWithin};

use crate::state::RunState;
use crate::trial::{Trial, is_within};
use place_peaks::peaks_are_seated;
use plan_core::Plan;
use storage_simulation::{Phase, Standing};
use values::TaskId;

/// Whether a task has ended.
fn has_ended(standing: &Standing, task: TaskId) -> bool
    ensures { result ≡ ended (phase_of standing.now task.0) }
{
    match standing.tasks.as_slice().get(task.0 as usize) {
        Some(Phase::Ended) => true,
        _ => false,
    }
}

fn all_ended(standing: &Standing, parents: &[TaskId]) -> bool
    ensures { result ≡ list_all (λ (u : TaskId). ended (phase_of standing.now u.0)) parents.now }
{
    parents.iter().all(|parent| has_ended(standing, *parent))
}

/// Whether all parents of a task have ended.
#[tactic(auto, using(lease_rules::proofs::NumbersLemmas::all_tasks))]
fn parents_ended(plan: &Plan, standing: &Standing, task: u32) -> bool
    ensures { result ≡ list_all (λ u. ended (phase_of standing.now u)) (parents plan.now task) }
{
    all_ended(standing, plan.parents(TaskId(task)))
}

/// The Choice.
pub(crate) fn choose(plan: &Plan, state: &RunState) -> Option<u32>
    requires limits { IsWithinLimits plan.now }
    requires peaks { HasPeaks plan.now state.now }
    requires unfailed { (state_of state.now).failing ≡ false }
    ensures { MatchOption result (HasNoChoice plan.now (state_of state.now))
        (λ t. IsChoice plan.now (state_of state.now) t) }
{
    peaks_are_seated();
    state.peaks.choose(plan)
}

/// Whether a fresh order may begin with a task of rest, whose start is then tried.
pub(crate) fn is_candidate(plan: &Plan, state: &RunState, trial: &mut Trial, task: u32) -> bool
    requires limits { IsWithinLimits plan.now }
    requires laws { HasStorageLaws plan.now }
    requires sound { IsSoundState plan.now (state_of state.now) }
    requires room { HasRoom plan.now state.now }
    requires place { HasPlace plan.now trial.old }
    requires left { has (state_of state.now).rest task ≡ true }
    ensures value { Decides result (IsCandidate plan.now (state_of state.now) task) }
    ensures tried { result ≡ true → IsTrialWithin plan.now (state_of state.now) task trial.new }
    ensures place { HasPlace plan.now trial.new }
{
    if plan.is_clean(TaskId(task)) {
        return false;
    }
    if !parents_ended(plan, &state.standing, task) {
        return false;
    }
    trial.begin(plan, state, task);
    is_within(plan, &trial.standing)
}
