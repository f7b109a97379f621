//! What a run leaves at sites.

ghost use Rattle.std.specs.Prelude.{◌≤◌, ◌+◌, ℕ, List, take};
ghost use Rattle.plan_core.specs.declared.plan.Plan.{Plan};
ghost use Rattle.plan_core.specs.code.Proper.{IsProper};
ghost use Rattle.run_record.specs.Events.{Event};
ghost use Rattle.lease_rules.specs.code.Law.{FitsFromStart};
ghost use Rattle.lease_rules.specs.Law.{reserved_at, stored_at};
ghost use Rattle.lease_rules.specs.Legal.{Legal};
ghost use Rattle.lease_rules.specs.State.{now};
ghost use Rattle.site_yard.specs.Leaving.{left_in};
ghost use Rattle.site_yard.specs.Trace.{trace_of};

use crate::law::plan_laws;
use lease_rules::{allowed_entries_keep_safe, legal_records_are_safe};
use storage_simulation::proper_plans_keep_goods;

/// After every entry of a Legal record its operations have left at a site no more than is stored and reserved there.
pub fn what_is_left_is_held()
    ensures { (p : Plan) (order : List ℕ) (r : List Event) → IsProper p → FitsFromStart p order
        → Legal p order r → (k s : ℕ)
        → left_in p (trace_of p (take k r)) s
        ≤ stored_at p (now p order (take k r)).held s + reserved_at p (now p order (take k r)).held s }
{
    plan_laws();
    proper_plans_keep_goods();
    allowed_entries_keep_safe();
    legal_records_are_safe();
}
