//! Jobs, one after the other, over a table of bytes.

ghost use Rattle.std.specs.Prelude.{◌≡◌, ◌+◌, ◌≤◌, Some, IfErr, IfOk, length, slice_get};
ghost use Rattle.std.specs.Option.{option_copied};
ghost use Rattle.plan_core.specs.Words.{file_numbers};
ghost use Rattle.task_work.specs.Running.{IsToolCause, RunsJob, RunsJobs, RunsTool, made_by};
ghost use Rattle.task_work.specs.Table.{at};

use crate::table::Table;
use outside::{Blob, JobId, Tool, ToolFault};
use plan_core::{Plan, PlanJob};
use run_record::Cause;
use std::alloc::Global;

fn find_job(plan: &Plan, number: JobId) -> Option<&PlanJob>
    ensures { option_copied result ≡ slice_get plan.now.jobs number.0 }
{
    plan.jobs.as_slice().get(number.0 as usize)
}

/// Runs a job's tool.
fn run_tool<T: Tool>(
    alloc: Global,
    number: JobId,
    job: &PlanJob,
    inputs: &[Blob],
    tool: &mut T,
) -> Result<Vec<Blob>, Cause>
    ensures made { IfOk result (λ v. made_by T.apply job.now inputs.now ≡ Some v.items) }
    ensures many { IfOk result (λ v. length v.items ≡ length (file_numbers job.now.outputs)) }
    ensures cause { IfErr result (λ c. IsToolCause (made_by T.apply job.now inputs.now) number.0
        (T.faults tool.old) (T.faults tool.new) c) }
    ensures tool { T.faults tool.old ≤ T.faults tool.new }
    ensures runs { T.runs tool.new ≤ T.runs tool.old + 1 }
{
    let made = tool.run(
        alloc,
        job.tool.as_str(),
        job.arguments.as_slice(),
        inputs,
        job.outputs.as_slice().len(),
    );
    match made {
        Ok(outputs) => Ok(outputs),
        Err(ToolFault::Declined) => Err(Cause::Declined(number)),
        Err(ToolFault::Failed) => Err(Cause::ToolFailed(number)),
        Err(ToolFault::Memory) => Err(Cause::Memory),
    }
}

/// Runs a job's tool, and sets its outputs in the table.
fn fill_outputs<T: Tool>(
    alloc: Global,
    number: JobId,
    job: &PlanJob,
    inputs: &[Blob],
    table: &mut Table,
    tool: &mut T,
) -> Result<(), Cause>
    ensures answer { RunsTool T.apply job.now number.0 inputs.now (at table.old) (at table.new)
        (T.faults tool.old) (T.faults tool.new) result }
    ensures tool { T.faults tool.old ≤ T.faults tool.new }
    ensures runs { T.runs tool.new ≤ T.runs tool.old + 1 }
{
    match run_tool(alloc, number, job, inputs, tool) {
        Err(cause) => Err(cause),
        Ok(outputs) => match table.place(job.outputs.as_slice(), outputs) {
            Ok(()) => Ok(()),
            Err(_) => Err(Cause::Memory),
        },
    }
}

/// Runs one job on what stands in the table. Where an input doesn't stand there, its tool makes nothing.
fn run_job<T: Tool>(
    alloc: Global,
    plan: &Plan,
    number: JobId,
    table: &mut Table,
    tool: &mut T,
) -> Result<(), Cause>
    ensures answer { RunsJob T.apply plan.now.jobs number.0 (at table.old) (at table.new) (T.faults tool.old)
        (T.faults tool.new) result }
    ensures tool { T.faults tool.old ≤ T.faults tool.new }
    ensures runs { T.runs tool.new ≤ T.runs tool.old + 1 }
{
    match find_job(plan, number) {
        None => Err(Cause::Declined(number)),
        Some(job) => match table.copies(alloc, job.inputs.as_slice()) {
            Ok(Some(inputs)) => fill_outputs(alloc, number, job, &inputs, table, tool),
            Ok(None) => Err(Cause::Declined(number)),
            Err(_) => Err(Cause::Memory),
        },
    }
}

/// Runs jobs, one by one.
pub(crate) fn run_jobs<T: Tool>(
    alloc: Global,
    plan: &Plan,
    jobs: &[JobId],
    table: &mut Table,
    tool: &mut T,
) -> Result<(), Cause>
    ensures answer { RunsJobs T.apply plan.now.jobs jobs.now (at table.old) (at table.new)
        (T.faults tool.old) (T.faults tool.new) result }
    ensures tool { T.faults tool.old ≤ T.faults tool.new }
    ensures runs { T.runs tool.new ≤ T.runs tool.old + length jobs.now }
{
    for number in jobs {
        match run_job(alloc, plan, *number, table, tool) {
            Ok(()) => {}
            Err(cause) => return Err(cause),
        }
    }
    Ok(())
}
