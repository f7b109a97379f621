//! What the definitions come to.

ghost use Rattle.std.specs.Prelude.{◌≡◌, ◌++◌, ℕ, List, Some};
ghost use Rattle.values.specs.Apply.{Apply};
ghost use Rattle.values.specs.declared.documents.Documents.{Documents};
ghost use Rattle.outside.specs.declared.store.Store.{Store};
ghost use Rattle.dependency_graph.specs.Graph.{IsGraphOf};
ghost use Rattle.plan_core.specs.declared.plan.Plan.{Plan};
ghost use Rattle.plan_core.specs.code.Proper.{IsProper};
ghost use Rattle.plan_request.specs.code.Limits.{IsWithinLimits};
ghost use Rattle.plan_request.specs.declared.request.PlanRequest.{PlanRequest};
ghost use Rattle.planner.specs.code.Course.{IsSurvey};
ghost use Rattle.planner.specs.code.Planning.{IsPlanOf};
ghost use Rattle.planner.specs.declared.inputs.Survey.{Survey};
ghost use Rattle.planner.specs.declared.surveyed.Surveyed.{Surveyed};
ghost use Rattle.storage_simulation.specs.code.Ordering.{IsOrder};
ghost use Rattle.storage_simulation.specs.Ordering.{at_start};
ghost use Rattle.run_record.specs.Events.{Event};
ghost use Rattle.lease_rules.specs.code.Law.{FitsFromStart};
ghost use Rattle.lease_rules.specs.Legal.{Legal};
ghost use Rattle.site_yard.specs.code.Faults.{AllCarried};
ghost use Rattle.site_yard.specs.code.Kept.{IsOpening};
ghost use Rattle.site_yard.specs.code.Reopening.{AreRecorded};
ghost use Rattle.record_audit.specs.declared.verdict.Verdict.{Verdict};
ghost use Rattle.record_audit.specs.declared.verdict.Verdict.TheVariants as verdicts;
ghost use Rattle.plan_run.specs.code.Finishing.{NoneFailed};
ghost use Rattle.plan_run.specs.Finishing.{replicas_of};
ghost use Rattle.plan_run.specs.Moments.{Tools, Work};
ghost use Rattle.resume_run.specs.Finishing.{IsDoneOrMemory};
ghost use Rattle.resume_run.specs.Replaying.{without_fails};
ghost use Rattle.resume_run.specs.Resuming.{End, Resumes, held_after};
ghost use Rattle.pegasus_commands.specs.declared.course.Requested.{Requested};
ghost use Rattle.pegasus_commands.specs.declared.recorded.Recorded.{Recorded};
ghost use Rattle.pegasus_commands.specs.code.Commands.Audit.{IsJudgment, IsOrdered};
ghost use Rattle.pegasus_commands.specs.code.Fault.{done};
ghost use Rattle.pegasus_commands.specs.code.PlanRun.{HasRunPlan};
ghost use Rattle.pegasus_commands.specs.code.Survey.{IsSurveyed};

use lease_rules::records_read;
use record_audit::{complete_records_are_judged_so, printed_records_are_read};
use resume_run::{records_without_fails_are_legal, resumes_finish};
use run_record::text_is_of_one_record;
use site_yard::plan_laws;
use storage_simulation::{order_fits, proper_plans_keep_goods};

/// A request and a survey have at most one plan with one order, and so have a request and its documents.
pub fn planning_is_a_function()
    ensures plan { (r : PlanRequest) (s : Survey) (limit : ℕ) (p q : Plan) → IsGraphOf s.workflow s.graph
        → IsWithinLimits r → IsPlanOf r s limit p → IsPlanOf r s limit q → p ≡ q }
    ensures order { (s : Surveyed) (p q : Plan) (xs ys : List ℕ) → IsOrdered s p xs → IsOrdered s q ys
        → (p ≡ q) × (xs ≡ ys) }
    ensures plan_of_documents { (r : PlanRequest) (d : Documents) (s t : Survey) (limit : ℕ) (p q : Plan)
        → IsWithinLimits r → IsSurvey r d s → IsSurvey r d t → IsPlanOf r s limit p → IsPlanOf r t limit q
        → p ≡ q }
    ensures order_of_documents { (given : Requested) (s t : Surveyed) (p q : Plan) (xs ys : List ℕ)
        → IsSurveyed given s → IsSurveyed given t → IsOrdered s p xs → IsOrdered t q ys
        → (p ≡ q) × (xs ≡ ys) }
{}

/// What a run that is done has printed, whatever follows it, is judged to be the record of the run, and complete, by
/// every plan and order of the same documents.
pub fn printed_runs_are_complete()
    ensures { (w : Work) (t : Tools) (n : ℕ) (given : Requested) (s : Surveyed) (text rest : List ℕ)
        (run : HasRunPlan w t n s text done) (i : Recorded) (p : Plan) (order : List ℕ)
        (r : List Event) (v : Verdict)
        → IsSurveyed given s → IsSurveyed given i.surveyed → i.bytes ≡ text ++ rest
        → IsJudgment i p order r v → (r ≡ run.ran.r) × (v ≡ verdicts.Complete) }
{
    complete_records_are_judged_so();
    printed_records_are_read();
    text_is_of_one_record();
}

/// What a Truthful record of an order has stored, and the store holds as it is carried, has its recorded size there.
pub fn recorded_sizes_are_carried()
    ensures { (apply : Apply) (p : Plan) (order : List ℕ) (r : List Event) (store : Store) → IsProper p
        → FitsFromStart p order → Legal p order r → IsOpening apply p r store
        → AreRecorded p (held_after p order r) (Some store) }
{
    plan_laws();
    records_read();
}

/// Nothing but a counted failure, or want of memory, keeps a run from its end that goes on from a Legal record, where the
/// record says what is so, the host tells that it holds what is carried, and all that tasks carry is there and fits.
pub fn truthful_records_are_resumed()
    ensures { (w : Work) (t : Tools) (p : Plan) (order : List ℕ) (given : List Event) (store : Store)
        (text : List ℕ) (end : End)
        → IsProper p → IsOrder p at_start order → Legal p order given → w.before.told ≡ Some store
        → IsOpening w.apply p (without_fails given) store → AllCarried w.apply (replicas_of store) p
        → NoneFailed w t 16 → Resumes w t p order given text end → IsDoneOrMemory end }
{
    recorded_sizes_are_carried();
    records_without_fails_are_legal();
    resumes_finish();
    order_fits();
    proper_plans_keep_goods();
}
