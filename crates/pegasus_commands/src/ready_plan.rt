//! A plan of the documents, ready to be run, and what a command tells of its run.

ghost use Rattle.std.specs.Prelude.{◌≡◌, ◌≤◌, [], IfErr, IfOk};
ghost use Rattle.plan_core.specs.Words.{retries};
ghost use Rattle.planner.specs.code.Planning.{IsPlanned};
ghost use Rattle.pegasus_commands.specs.code.Commands.Plan.{IsRefusal, task_limit};
ghost use Rattle.pegasus_commands.specs.code.Fault.{end_answer, not_for};
ghost use Rattle.pegasus_commands.specs.code.PlanRun.{Readies};

use crate::commands::{TASK_LIMIT, Told, Worked, at_once};
use crate::fault::{CallFault, of_plan_fault, of_run_fault};
use crate::kept_tools::unknown_tool;
use outside::{Host, Memory, Tool};
use plan_run::Ran;
use planner::{Surveyed, plan_survey, plans_deliver_requests};
use rehearsal::Rehearsal;
use run_record::RunFault;
use std::alloc::Global;
use storage_simulation::Ordered;

/// The plan of a surveyed request with its order.
pub(crate) fn plan_request(alloc: Global, surveyed: &Surveyed) -> Result<Ordered, CallFault>
    ensures planned { IfOk result (IsPlanned surveyed.now.request surveyed.now.survey task_limit) }
    ensures fault { IfErr result (IsRefusal surveyed.now) }
    ensures policy { IfOk result (λ o. o.plan.policy ≡ surveyed.now.request.policy) }
    ensures retries { IfOk result (λ o. retries o.plan ≤ 10) }
{
    // A law for the proof: it does nothing.
    plans_deliver_requests();
    match plan_survey(alloc, surveyed, TASK_LIMIT) {
        Ok(ordered) => Ok(ordered),
        Err(fault) => Err(of_plan_fault(fault)),
    }
}

/// The plan of a surveyed request with its order, if the tools of all its kept jobs are known.
pub(crate) fn ready_plan<T: Tool>(
    alloc: Global,
    surveyed: &Surveyed,
    tool: &T,
) -> Result<Ordered, CallFault>
    ensures readies { Readies T.known surveyed.now result }
    ensures retries { IfOk result (λ o. retries o.plan ≤ 10) }
{
    let ordered = match plan_request(alloc, surveyed) {
        Ok(ordered) => ordered,
        Err(fault) => return Err(fault),
    };
    match unknown_tool(alloc, ordered.plan(), tool) {
        Ok(None) => Ok(ordered),
        Ok(Some(fault)) => {
            drop(ordered);
            Err(CallFault::Refused(fault))
        }
        Err(Memory) => {
            drop(ordered);
            Err(CallFault::Memory)
        }
    }
}

/// Nothing was run.
pub(crate) fn unrun<H: Host>(alloc: Global, fault: CallFault, host: H) -> Worked<H>
    ensures answer { result.told.answer ≡ not_for fault }
    ensures text { result.told.text.items ≡ [] }
    ensures host { result.host ≡ host }
{
    Worked {
        told: at_once(alloc, fault),
        host,
    }
}

/// The answer for the end of a run.
fn of_end(end: Result<(), RunFault>) -> Result<Option<Rehearsal>, CallFault>
    ensures { result ≡ end_answer end }
{
    match end {
        Ok(()) => Ok(None),
        Err(fault) => Err(of_run_fault(fault)),
    }
}

/// What a command tells of its run.
pub(crate) fn ended<H: Host>(ran: Ran<H>) -> Worked<H>
    ensures answer { result.told.answer ≡ end_answer ran.end }
    ensures text { result.told.text.items ≡ ran.text.items }
    ensures host { result.host ≡ ran.host }
{
    let Ran {
        end,
        text,
        host,
        ..
    } = ran;
    let answer = of_end(end);
    Worked {
        told: Told { answer, text },
        host,
    }
}
