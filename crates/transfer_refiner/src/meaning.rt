//! What the tasks of a draft's plan carry.

ghost use Rattle.std.specs.Prelude.{◌≡◌, ◌<◌, ◌^◌, ℕ, true, List, None, Option};
ghost use Rattle.values.specs.Apply.{Apply};
ghost use Rattle.plan_core.specs.declared.plan.Plan.{Plan};
ghost use Rattle.plan_core.specs.Carried.{carried};
ghost use Rattle.plan_core.specs.code.Kinds.{carries};
ghost use Rattle.transfer_refiner.specs.code.Conditions.{IsDraft};
ghost use Rattle.transfer_refiner.specs.Draft.{Draft};
ghost use Rattle.transfer_refiner.specs.code.Meaning.{AreAtHand, AreHeld, AreValues};
ghost use Rattle.transfer_refiner.specs.Refined.{IsRefined};
ghost use Rattle.transfer_refiner.specs.code.Tasks.{first_fault};

use plan_core::{carried_is_carried_along, parents_write_what_is_read};

/// Where each registered copy holds its file's value, each task of the plan carries the values of its files.
pub fn refined_plan_means_the_workflow()
    ensures { (apply : Apply) (told : List ℕ → Option (List ℕ)) (value : ℕ → Option (List ℕ)) (d : Draft)
        (limit : ℕ) (p : Plan) → IsDraft d → limit < 2 ^ 32 → first_fault d limit ≡ None → IsRefined d p
        → AreValues apply d.request.tools d.workflow value → AreHeld d told value → AreAtHand d → (t f : ℕ)
        → carries p t f ≡ true → carried apply told p t f ≡ value f }
{
    carried_is_carried_along();
    parents_write_what_is_read();
}
