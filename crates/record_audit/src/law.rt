//! What the definitions come to.

ghost use Rattle.std.specs.Prelude.{◌≡◌, ◌≤◌, ◌*◌, ◌^◌, ◌++◌, ℕ, List, length, sum_by};
ghost use Rattle.plan_core.specs.declared.plan.Plan.{Plan};
ghost use Rattle.plan_core.specs.code.Proper.{IsProper};
ghost use Rattle.plan_core.specs.Words.{retries};
ghost use Rattle.storage_simulation.specs.code.Goods.{IsWithinLimits};
ghost use Rattle.run_record.specs.Events.{Event};
ghost use Rattle.lease_rules.specs.code.Law.{FitsFromStart, IsConsistent};
ghost use Rattle.lease_rules.specs.Legal.{Allowed, Legal};
ghost use Rattle.lease_rules.specs.State.{State, now};
ghost use Rattle.record_audit.specs.Holdings.{IsSized};
ghost use Rattle.record_audit.specs.Sums.{arrived};
ghost use Rattle.run_record.specs.code.RecordText.{AreEntries};
ghost use Rattle.run_record.specs.RecordText.{record_text};
ghost use Rattle.lease_rules.specs.Legal.{IsComplete};
ghost use Rattle.record_audit.specs.Part.{record_part};
ghost use Rattle.record_audit.specs.Verdict.{IsJudged};
ghost use Rattle.record_audit.specs.declared.verdict.Verdict.{Verdict};
ghost use Rattle.record_audit.specs.declared.verdict.Verdict.TheVariants as verdicts;

use lease_rules::{allowed_entries_keep_safe, entries_are_few};
use plan_core::files_are_listed_by_pair;

/// The state after a Legal record is consistent.
pub(crate) fn legal_records_are_consistent()
    ensures { (p : Plan) (order : List ℕ) (r : List Event) → IsProper p → FitsFromStart p order
        → Legal p order r → IsConsistent p (now p order r) }
{
    allowed_entries_keep_safe();
    entries_are_few();
}

/// A Legal record has few entries, and what each of its arrivals has moved is a declared size.
pub(crate) fn legal_records_are_short()
    ensures entries { (p : Plan) (order : List ℕ) (r : List Event) → IsProper p → IsWithinLimits p
        → retries p ≤ 10 → FitsFromStart p order → Legal p order r → length r ≤ 120000 * 22 }
    ensures moved { (p : Plan) (order : List ℕ) (r : List Event) → IsProper p → IsWithinLimits p
        → FitsFromStart p order → Legal p order r → sum_by arrived r ≤ length r * 2 ^ 40 }
{
    allowed_entries_keep_safe();
    entries_are_few();
    files_are_listed_by_pair();
}

/// The sizes of an entry that is allowed are small, and an End has one for each file of its task.
pub(crate) fn allowed_entries_are_sized()
    ensures { (p : Plan) (s : State) (e : Event) → IsProper p → IsWithinLimits p → Allowed p s e
        → IsSized p e }
{
    files_are_listed_by_pair();
}

/// What begins with the text of a record has that text as the part that is read.
pub fn printed_records_are_read()
    ensures { (r : List Event) (rest : List ℕ) → AreEntries r
        → record_part (record_text r ++ rest) ≡ record_text r }
{}

/// Of a legal and complete record there is no other verdict.
pub fn complete_records_are_judged_so()
    ensures { (p : Plan) (order : List ℕ) (r : List Event) (v : Verdict) → Legal p order r
        → IsComplete p (now p order r) → IsJudged p order r v → v ≡ verdicts.Complete }
{}
