//! What the definitions come to.

ghost use Rattle.std.specs.Prelude.{◌≡◌, ℕ, List, Option, Some, map, true};
ghost use Rattle.values.specs.Apply.{Apply};
ghost use Rattle.plan_core.specs.declared.plan.Plan.{Plan};
ghost use Rattle.plan_core.specs.Carried.{Bytes, carried};
ghost use Rattle.plan_core.specs.code.Proper.{IsProper};
ghost use Rattle.plan_core.specs.Words.{is_run, reads};
ghost use Rattle.task_work.specs.Computing.{IsComputed};
ghost use Rattle.plan_core.specs.code.Names.{content};

use plan_core::{carried_is_carried_along, files_are_listed_by_pair};

/// In a proper plan a Run carries what its jobs make of what the writers of its reads carry.
pub fn runs_carry_what_they_compute()
    ensures { (apply : Apply) (told : Bytes → Option Bytes) (p : Plan) (t : ℕ) (blobs : List Bytes)
        → IsProper p → is_run p t ≡ true
        → map (content p (carried apply told p)) (reads p t) ≡ map Some blobs
        → IsComputed apply p (carried apply told p) t blobs }
{
    carried_is_carried_along();
    files_are_listed_by_pair();
}
