//! What the definitions come to.

ghost use Rattle.std.specs.Prelude.{ℕ, List};
ghost use Rattle.plan_core.specs.declared.plan.Plan.{Plan};
ghost use Rattle.plan_core.specs.code.Proper.{IsProper};
ghost use Rattle.run_record.specs.Events.{Event};
ghost use Rattle.lease_rules.specs.Legal.{Legal};
ghost use Rattle.plan_run.specs.code.Finishing.{NoneFailed};
ghost use Rattle.plan_run.specs.Moments.{Tools, Work};
ghost use Rattle.resume_run.specs.Finishing.{CanEnd, IsDoneOrMemory};
ghost use Rattle.resume_run.specs.Replaying.{without_fails};
ghost use Rattle.resume_run.specs.Resuming.{End, Resumes};

use site_yard::nothing_else_fails;

/// Nothing but a counted failure, or want of memory, keeps a run that can be gone on with from its end.
pub fn resumes_finish()
    ensures { (w : Work) (t : Tools) (p : Plan) (order : List ℕ) (given : List Event) (text : List ℕ)
        (end : End)
        → IsProper p → CanEnd w p order given → NoneFailed w t 16 → Resumes w t p order given text end
        → IsDoneOrMemory end }
{
    nothing_else_fails();
}

/// A Legal record is Legal without its Fails: after the first of them there are Arrives, Ends and Fails alone.
pub fn records_without_fails_are_legal()
    ensures { (p : Plan) (order : List ℕ) (r : List Event) → Legal p order r
        → Legal p order (without_fails r) }
{}
