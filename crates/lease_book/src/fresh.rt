//! The task of a fresh order.

ghost use Rattle.std.specs.Prelude.{◌≡◌, ◌<◌, ℕ, true, false, length, get_or, None, Some, Decides, MatchOption};
ghost use Rattle.plan_core.specs.code.Proper.{IsProper};
ghost use Rattle.storage_simulation.specs.code.Goods.{IsWithinLimits};
ghost use Rattle.storage_simulation.specs.code.Bench.{IsFor};
ghost use Rattle.storage_simulation.specs.code.Front.{front_of};
ghost use Rattle.lease_rules.specs.Choice.{HasNoChoice, IsCandidate, IsFresh, IsFreshAmong};
ghost use Rattle.lease_rules.specs.code.Law.{HasStorageLaws, IsSoundState};
ghost use Rattle.lease_book.specs.RunState.{HasPeaks, HasRoom, LineIsRest, state_of};
ghost use Rattle.place_peaks.specs.Peaks.{left_of, line_of};
ghost use Rattle.lease_rules.specs.State.{order_with};
ghost use Rattle.lease_book.specs.Trial.{HasPlace, IsTrialWithin};

use crate::choice::is_candidate;
use crate::state::RunState;
use crate::trial::Trial;
use plan_core::Plan;
use storage_simulation::{Bench, order_from, order_is_a_function};

/// How many candidates are looked at.
const MOST_CANDIDATES: usize = 4;

/// Whether there is an order with the task whose start was tried; it is then on the bench.
fn has_order(plan: &Plan, state: &RunState, trial: &Trial, bench: &mut Bench, task: u32) -> bool
    requires proper { IsProper plan.now }
    requires limits { IsWithinLimits plan.now }
    requires candidate { IsCandidate plan.now (state_of state.now) task }
    requires tried { IsTrialWithin plan.now (state_of state.now) task trial.now }
    requires bench { IsFor plan.now bench.old }
    ensures gives { result ≡ true
        → order_with plan.now (state_of state.now) task ≡ Some (front_of bench.new.front) }
    ensures none { result ≡ false → order_with plan.now (state_of state.now) task ≡ None }
    ensures bench { IsFor plan.now bench.new }
{
    let _ = state;
    let _ = task;
    order_is_a_function();
    match order_from(plan, &trial.standing, bench) {
        Ok(()) => true,
        Err(_) => false,
    }
}

/// Whether the task at a position of the line is left, and a fresh order may begin with it; its start is then tried.
fn is_candidate_at(plan: &Plan, state: &RunState, trial: &mut Trial, k: usize) -> bool
    requires limits { IsWithinLimits plan.now }
    requires laws { HasStorageLaws plan.now }
    requires sound { IsSoundState plan.now (state_of state.now) }
    requires room { HasRoom plan.now state.now }
    requires place { HasPlace plan.now trial.old }
    requires line { LineIsRest state.now }
    requires within { k < length (line_of state.now.peaks) }
    ensures value { Decides result ((left_of state.now.peaks (get_or (line_of state.now.peaks) k 0) ≡ true)
        × IsCandidate plan.now (state_of state.now) (get_or (line_of state.now.peaks) k 0)) }
    ensures tried { result ≡ true
        → IsTrialWithin plan.now (state_of state.now) (get_or (line_of state.now.peaks) k 0) trial.new }
    ensures place { HasPlace plan.now trial.new }
{
    let task = state.peaks.line_task(k);
    if !state.peaks.is_left(task) {
        return false;
    }
    is_candidate(plan, state, trial, task)
}

/// The first of the first candidates of rest with which there is an order, which is then on the bench.
fn first_with_order(
    plan: &Plan,
    state: &RunState,
    trial: &mut Trial,
    bench: &mut Bench,
) -> Option<u32>
    requires proper { IsProper plan.now }
    requires limits { IsWithinLimits plan.now }
    requires laws { HasStorageLaws plan.now }
    requires sound { IsSoundState plan.now (state_of state.now) }
    requires room { HasRoom plan.now state.now }
    requires line { LineIsRest state.now }
    requires place { HasPlace plan.now trial.old }
    requires bench { IsFor plan.now bench.old }
    ensures among { MatchOption result ((t : ℕ)
        → IsFreshAmong plan.now (state_of state.now) 4 (state_of state.now).rest t → ⊥)
        (λ t. IsFreshAmong plan.now (state_of state.now) 4 (state_of state.now).rest t) }
    ensures order { MatchOption result (Unit {0})
        (λ t. order_with plan.now (state_of state.now) t ≡ Some (front_of bench.new.front)) }
    ensures place { HasPlace plan.now trial.new }
    ensures bench { IsFor plan.now bench.new }
{
    let mut left = MOST_CANDIDATES;
    for k in 0..state.peaks.count_line() {
        if left == 0 {
            return None;
        }
        if is_candidate_at(plan, state, trial, k) {
            let task = state.peaks.line_task(k);
            if has_order(plan, state, trial, bench, task) {
                return Some(task);
            }
            left -= 1;
        }
    }
    None
}

/// The task of a fresh order, which is then on the bench.
pub(crate) fn fresh_task(
    plan: &Plan,
    state: &RunState,
    trial: &mut Trial,
    bench: &mut Bench,
) -> Option<u32>
    requires proper { IsProper plan.now }
    requires limits { IsWithinLimits plan.now }
    requires laws { HasStorageLaws plan.now }
    requires sound { IsSoundState plan.now (state_of state.now) }
    requires room { HasRoom plan.now state.now }
    requires peaks { HasPeaks plan.now state.now }
    requires place { HasPlace plan.now trial.old }
    requires bench { IsFor plan.now bench.old }
    requires unfailed { (state_of state.now).failing ≡ false }
    requires no_choice { HasNoChoice plan.now (state_of state.now) }
    ensures fresh { MatchOption result ((t : ℕ) → IsFresh plan.now (state_of state.now) t → ⊥)
        (λ t. IsFresh plan.now (state_of state.now) t) }
    ensures order { MatchOption result (Unit {0})
        (λ t. order_with plan.now (state_of state.now) t ≡ Some (front_of bench.new.front)) }
    ensures place { HasPlace plan.now trial.new }
    ensures bench { IsFor plan.now bench.new }
{
    if !plan.is_fresh() {
        return None;
    }
    first_with_order(plan, state, trial, bench)
}
