//! The verdict on a record, by the plan and the order of a request's documents.

ghost use Rattle.std.specs.Prelude.{◌≤◌, IfErr, IfOk};
ghost use Rattle.plan_core.specs.Words.{retries, task_numbers};
ghost use Rattle.run_record.specs.code.RecordText.{AreEntries};
ghost use Rattle.pegasus_commands.specs.code.Commands.Audit.{IsJudgment, IsRecordOf, IsUnjudged, IsUnread};

use crate::fault::CallFault;
use crate::ready_plan::plan_request;
use crate::recorded::Recorded;
use outside::{Blob, Memory};
use record_audit::{Verdict, audit, record_part};
use run_record::{Record, RecordFault, parse};
use std::alloc::Global;
use storage_simulation::Ordered;

/// A plan with its order, a record, and the verdict on it.
#[derive(Drop)]
pub(crate) struct Judged {
    pub(crate) ordered: Ordered,
    pub(crate) history: Record,
    pub(crate) verdict: Verdict,
}

/// The record at the front of some bytes.
pub(crate) fn record_in(alloc: Global, bytes: &Blob) -> Result<Record, CallFault>
    ensures is { IfOk result (λ r. IsRecordOf bytes.now r.events) }
    ensures fault { IfErr result (IsUnread bytes.now) }
{
    match parse(alloc, record_part(bytes.as_slice())) {
        Ok(history) => Ok(history),
        Err(RecordFault::Malformed(line)) => Err(CallFault::BadRecord(line)),
        Err(RecordFault::Memory) => Err(CallFault::Memory),
    }
}

/// Plans, reads the record and judges it, or tells why not.
pub(crate) fn judge(alloc: Global, recorded: &Recorded) -> Result<Judged, CallFault>
    ensures judgment { IfOk result (λ j. IsJudgment recorded.now j.ordered.plan
        (task_numbers j.ordered.tasks.items)
        j.history.events j.verdict) }
    ensures retries { IfOk result (λ j. retries j.ordered.plan ≤ 10) }
    ensures fault { IfErr result (IsUnjudged recorded.now) }
{
    let ordered = match plan_request(alloc, &recorded.surveyed) {
        Ok(ordered) => ordered,
        Err(fault) => return Err(fault),
    };
    let history = match record_in(alloc, &recorded.bytes) {
        Ok(history) => history,
        Err(fault) => {
            drop(ordered);
            return Err(fault);
        }
    };
    match audit(alloc, &ordered, &history) {
        Ok(verdict) => Ok(Judged {
            ordered,
            history,
            verdict,
        }),
        Err(Memory) => {
            drop(history);
            drop(ordered);
            Err(CallFault::Memory)
        }
    }
}
