//! Why a run may fail.

ghost use Rattle.std.specs.Prelude.{◌≡◌, ◌≤◌, ◌++◌, ℕ, true, false, List, Option, Some, None, is_some};
ghost use Rattle.values.specs.Apply.{Apply};
ghost use Rattle.plan_core.specs.declared.plan.Plan.{Plan};
ghost use Rattle.plan_core.specs.Carried.{Bytes, carried};
ghost use Rattle.plan_core.specs.code.Proper.{IsProper};
ghost use Rattle.run_record.specs.Events.{Event};
ghost use Rattle.lease_rules.specs.Legal.{Legal};
ghost use Rattle.lease_rules.specs.State.{now};
ghost use Rattle.run_record.specs.declared.run_fault.RunFault.{RunFault};
ghost use Rattle.site_yard.specs.code.Ending.{first_failed, first_fault};
ghost use Rattle.site_yard.specs.code.Failures.{tool_faults};
ghost use Rattle.site_yard.specs.Faults.{AllBelow};
ghost use Rattle.site_yard.specs.code.Faults.{AllCarried, HasToolFault, IsCountedFault};
ghost use Rattle.site_yard.specs.code.Truthful.{Truthful};

use crate::law::plan_laws;

/// Where all that tasks carry is there and fits, a run fails by a counted failure of the host or of a worker's tool, or
/// for want of memory; so does one that goes on from a record. In every Legal record the workers are below 16.
pub fn nothing_else_fails()
    ensures below { (apply : Apply) (told : Bytes → Option Bytes) (p : Plan) (order : List ℕ)
        (r : List Event) (fault : RunFault) (n : ℕ) → IsProper p → Legal p order r
        → Truthful apply told p (carried apply told p) r → AllCarried apply told p → AllBelow n r
        → first_fault p r ≡ Some fault → IsCountedFault (HasToolFault n r) r fault }
    ensures alone { (apply : Apply) (told : Bytes → Option Bytes) (p : Plan) (order : List ℕ)
        (r : List Event) (fault : RunFault) → IsProper p → Legal p order r
        → Truthful apply told p (carried apply told p) r → AllCarried apply told p → AllBelow 1 r
        → first_fault p r ≡ Some fault → IsCountedFault (1 ≤ tool_faults 0 r) r fault }
    ensures since { (apply : Apply) (told : Bytes → Option Bytes) (p : Plan) (order : List ℕ)
        (first r : List Event) (fault : RunFault) (n : ℕ) → IsProper p → Legal p order (first ++ r)
        → Truthful apply told p (carried apply told p) (first ++ r) → AllCarried apply told p → AllBelow n r
        → first_fault p r ≡ Some fault → IsCountedFault (HasToolFault n r) r fault }
    ensures workers { (p : Plan) (order : List ℕ) (r : List Event) → Legal p order r → AllBelow 16 r }
{
    plan_laws();
}

/// No Fail stands in a record exactly where its state isn't failing.
pub fn fails_show_in_the_state()
    ensures none { (p : Plan) (order : List ℕ) (r : List Event) → first_fault p r ≡ None
        → (now p order r).failing ≡ false }
    ensures unfailing { (p : Plan) (order : List ℕ) (r : List Event) → (now p order r).failing ≡ false
        → first_fault p r ≡ None }
    ensures failing { (p : Plan) (order : List ℕ) (r : List Event) → (now p order r).failing ≡ true
        → is_some (first_failed r) ≡ true }
{}
