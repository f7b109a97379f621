//! What the definitions come to.

ghost use Rattle.std.specs.Prelude.{ℕ, List};
ghost use Rattle.plan_core.specs.declared.plan.Plan.{Plan};
ghost use Rattle.plan_core.specs.code.Proper.{IsProper};
ghost use Rattle.plan_core.specs.Words.{parents};
ghost use Rattle.storage_simulation.specs.Following.{AreOnce};
ghost use Rattle.run_record.specs.declared.entry.Cause.{Cause};
ghost use Rattle.run_record.specs.Events.{Fail};
ghost use Rattle.lease_rules.specs.Legal.{Allowed};
ghost use Rattle.lease_rules.specs.State.{State, after};
ghost use Rattle.place_peaks.specs.declared.peaks.Peaks.{Peaks};
ghost use Rattle.place_peaks.specs.Entries.{AreTied};
ghost use Rattle.place_peaks.specs.Peaks.{AreBehind, AreSeated, HasPassed, HasRules};
ghost use Rattle.place_peaks.specs.Ready.{IsIndexed};

use plan_core::{files_are_listed_by_pair, numbers_are_in_range, parents_come_before};
use storage_simulation::{proper_plans_keep_goods, steps_fit};

/// A proper plan keeps to the rules of storage, and each of its tasks changes one place at most.
pub(crate) fn plans_have_rules()
    ensures { (p : Plan) → IsProper p → HasRules p }
{
    proper_plans_keep_goods();
    parents_come_before();
    files_are_listed_by_pair();
    numbers_are_in_range();
    steps_fit();
}

/// In a proper plan no task stands twice among a task's parents.
#[tactic(auto, using(crate::proofs::OpeningLemmas::parents_once))]
pub(crate) fn parents_stand_once()
    ensures { (p : Plan) → IsProper p → (t : ℕ) → AreOnce (parents p t) }
{}

/// Each seat of a task of the line is in its tree, no task of the line before the front is left, and the index is right.
pub fn peaks_are_seated()
    ensures seated { (p : Plan) (s : State) (b : Peaks) (front : List ℕ) → AreBehind p s b front
        → AreSeated b }
    ensures passed { (p : Plan) (s : State) (b : Peaks) → AreTied p s b → HasPassed b }
    ensures indexed { (p : Plan) (s : State) (b : Peaks) → AreTied p s b → IsIndexed p b }
{}

/// A Fail changes nothing.
pub fn fails_keep_peaks()
    ensures behind { (p : Plan) (s : State) (b : Peaks) (front : List ℕ) (w t : ℕ) (c : Cause) (ns : List ℕ)
        → AreBehind p s b front → Allowed p s (Fail w t c ns)
        → AreBehind p (after p s (Fail w t c ns)) b front }
    ensures tied { (p : Plan) (s : State) (b : Peaks) (w t : ℕ) (c : Cause) (ns : List ℕ) → AreTied p s b
        → Allowed p s (Fail w t c ns) → AreTied p (after p s (Fail w t c ns)) b }
{}
