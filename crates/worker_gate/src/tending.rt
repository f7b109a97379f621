//! One task at a yard, as the worker that it is open for ends it.

ghost use Rattle.std.specs.Prelude.{◌+◌, ◌≤◌, map, take};
ghost use Rattle.plan_core.specs.code.Proper.{IsProper};
ghost use Rattle.plan_core.specs.Words.{kind};
ghost use Rattle.lease_book.specs.Book.{state_at};
ghost use Rattle.lease_rules.specs.Legal.{IsOpen};
ghost use Rattle.site_yard.specs.code.Yard.{IsSameYard};
ghost use Rattle.task_work.specs.Filling.{AreParts};
ghost use Rattle.task_work.specs.Making.{AreBegun, AreEmpty};
ghost use Rattle.worker_gate.specs.code.Calls.{EndsCalls};
ghost use Rattle.worker_gate.specs.code.Inputs.{AddsOfInputs, IsFilledOf};
ghost use Rattle.worker_gate.specs.code.Runs.{job_count};
ghost use Rattle.worker_gate.specs.code.Tending.{CanFinish, EndsTask, Fills, failures_in};

use outside::{Host, TaskId, Tool};
use plan_core::Plan;
use run_record::Cause;
use site_yard::{Loan, Yard};
use std::alloc::Global;
use task_work::{Filled, fill};

/// Fills a loan's drafts.
pub(crate) fn fill_loan<H: Host, T: Tool>(
    alloc: Global,
    plan: &Plan,
    task: TaskId,
    loan: &mut Loan<H>,
    tool: &mut T,
) -> Result<Filled, Cause>
    requires proper { IsProper plan.now }
    requires parts { AreParts plan.now task.0 (kind plan.now task.0)
        (map H.Reading.state loan.old.readings.items) (map H.Draft.state loan.old.drafts.items) }
    requires start { AreBegun (map H.Reading.state loan.old.readings.items) }
    requires empty { AreEmpty (map H.Draft.state loan.old.drafts.items) }
    ensures fills { Fills T.apply plan.now task.0 (map H.Reading.state loan.old.readings.items)
        (map H.Reading.state loan.new.readings.items) (map H.Draft.state loan.old.drafts.items)
        (map H.Draft.state loan.new.drafts.items) (T.faults tool.old) (T.faults tool.new) result }
    ensures runs { T.runs tool.new ≤ T.runs tool.old + job_count plan.now task.0 }
{
    fill(
        alloc,
        plan,
        task,
        loan.readings.as_mut_slice(),
        loan.drafts.as_mut_slice(),
        tool,
    )
}

/// Settles a loan that was filled, or abandons it with why it wasn't.
pub(crate) fn finish_at<H: Host, T: Tool>(
    alloc: Global,
    yard: &mut Yard<H, T>,
    worker: u32,
    task: TaskId,
    loan: Loan<H>,
    filled: Result<Filled, Cause>,
)
    requires open { IsOpen (state_at yard.old.book) worker task.0 }
    requires can { CanFinish T.apply yard.old.ordered.value.plan
        (take yard.old.opened yard.old.book.history.events) (H.marked yard.old.host)
        (H.told yard.old.host) task.0 (map H.Reading.state loan.readings.items)
        (map H.Draft.state loan.drafts.items) filled }
    requires inputs { IsFilledOf T.apply yard.old.ordered.value.plan task.0 filled }
    ensures ends { EndsTask worker task.0
        (failures_in filled) yard.old.book.history.events yard.new.book.history.events }
    ensures calls { EndsCalls yard.old.ordered.value.plan task.0 yard.old.book.history.events
        yard.new.book.history.events (H.counts yard.old.host) (H.counts yard.new.host) }
    ensures inputs { AddsOfInputs T.apply yard.old.ordered.value.plan yard.old.book.history.events
        yard.new.book.history.events }
    ensures same { IsSameYard yard.old yard.new }
{
    match filled {
        Ok(Filled::Moved(length, digest)) => {
            yard.settle(alloc, worker, task, loan, &[length], digest);
        }
        Ok(Filled::Made(sizes)) => yard.settle(alloc, worker, task, loan, &sizes, None),
        Err(cause) => yard.abandon(worker, task, loan, &cause),
    }
}
