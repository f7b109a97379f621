//! What a run comes to.

ghost use Rattle.std.specs.Prelude.{ℕ, List};
ghost use Rattle.plan_core.specs.declared.plan.Plan.{Plan};
ghost use Rattle.plan_core.specs.code.Proper.{IsProper};
ghost use Rattle.run_record.specs.Events.{Event};
ghost use Rattle.lease_rules.specs.code.Law.{FitsFromStart};
ghost use Rattle.lease_rules.specs.Legal.{Legal};
ghost use Rattle.plan_run.specs.code.Finishing.{CanEnd, IsDoneOrMemory, NoneFailed};
ghost use Rattle.plan_run.specs.Moments.{Tools, Work};
ghost use Rattle.plan_run.specs.Running.{AreWithinOutput};
ghost use Rattle.plan_run.specs.code.Running.{End, HasRun, Report};

use lease_rules::{allowed_entries_keep_safe, legal_records_are_safe};
use site_yard::nothing_else_fails;
use storage_simulation::{proper_plans_keep_goods, usage_is_a_sum};

/// Where the output has a bound, what is delivered is within it after every entry of a Legal record.
pub fn deliveries_stay_within_the_output()
    ensures { (p : Plan) (order : List ℕ) (r : List Event) → IsProper p → FitsFromStart p order
        → Legal p order r → AreWithinOutput p r }
{
    proper_plans_keep_goods();
    usage_is_a_sum();
    allowed_entries_keep_safe();
    legal_records_are_safe();
}

/// Nothing but a counted failure, or want of memory, keeps a run that can be done from its end.
pub fn runs_finish()
    ensures { (w : Work) (t : Tools) (n : ℕ) (p : Plan) (order : List ℕ) (x : Report) (end : End)
        → IsProper p → CanEnd w p → NoneFailed w t n → HasRun w t n p order x end → IsDoneOrMemory end }
{
    nothing_else_fails();
}
