//! What complete records have done.

ghost use Rattle.std.specs.Prelude.{◌≡◌, ℕ, true, List};
ghost use Rattle.plan_core.specs.declared.plan.Plan.{Plan};
ghost use Rattle.plan_core.specs.code.Proper.{IsProper};
ghost use Rattle.plan_core.specs.Words.{delivers};
ghost use Rattle.run_record.specs.Events.{Event};
ghost use Rattle.lease_rules.specs.code.Law.{FitsFromStart};
ghost use Rattle.lease_rules.specs.Legal.{IsComplete, Legal};
ghost use Rattle.lease_rules.specs.State.{now};
ghost use Rattle.site_yard.specs.code.Places.{is_delivered};

use crate::law::record_laws;

/// A complete record has delivered each file that a task delivers, and no record has delivered another one.
pub fn complete_records_deliver()
    ensures complete { (p : Plan) (order : List ℕ) (r : List Event) → IsProper p → FitsFromStart p order
        → Legal p order r → IsComplete p (now p order r) → (t f : ℕ) → delivers p t f ≡ true
        → is_delivered p r f ≡ true }
    ensures only { (p : Plan) (r : List Event) (f : ℕ) → is_delivered p r f ≡ true
        → (t : ℕ) × (delivers p t f ≡ true) }
{
    record_laws();
}
