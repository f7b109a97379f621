//! What the jobs of a Run make of the bytes that it reads.

ghost use Rattle.std.specs.Prelude.{◌≡◌, ◌+◌, ◌≤◌, ℕ, IfOk, Some, is_some, length, map, true};
ghost use Rattle.plan_core.specs.Numbers.{has};
ghost use Rattle.plan_core.specs.code.Proper.{IsProper};
ghost use Rattle.plan_core.specs.Words.{file_numbers, is_run, kind, pair_numbers, writes};
ghost use Rattle.storage_simulation.specs.Following.{AreOnce};
ghost use Rattle.task_work.specs.Computing.{Computes, files_of, given, jobs_in};
ghost use Rattle.task_work.specs.Table.{at};

use crate::names::pair_file;
use crate::running::run_jobs;
use crate::table::Table;
use outside::{Blob, FileId, JobId, Memory, PairId, TaskId, Tool};
use plan_core::{Plan, TaskKind, files_are_listed_by_pair, pairs_stand_once};
use run_record::Cause;
use std::alloc::Global;

/// The jobs of a Run.
fn jobs_of(plan: &Plan, task: TaskId) -> &[JobId]
    ensures { result.now ≡ jobs_in (kind plan.now task.0) }
{
    match plan.kind(task) {
        Some(TaskKind::Run { jobs, .. }) => jobs.as_slice(),
        _ => &[],
    }
}

fn pair_files(alloc: Global, plan: &Plan, pairs: &[PairId]) -> Result<Vec<FileId>, Memory>
    ensures { IfOk result (λ v. file_numbers v.items ≡ files_of plan.now (pair_numbers pairs.now)) }
{
    let mut files = Vec::new(alloc);
    for pair in pairs {
        files.push(pair_file(plan, *pair))?;
    }
    Ok(files)
}

/// A table of what a task reads.
fn table_of(alloc: Global, plan: &Plan, task: TaskId, blobs: Vec<Blob>) -> Result<Table, Memory>
    ensures { IfOk result (λ t. (f : ℕ) → at t f ≡ given plan.now task.0 blobs.items f) }
{
    let files = pair_files(alloc, plan, plan.reads(task))?;
    let mut table = Table::new(alloc);
    table.place(&files, blobs)?;
    Ok(table)
}

/// What stands at the files of a task's writes, taken out.
fn outputs_of(alloc: Global, plan: &Plan, task: TaskId, table: Table) -> Result<Vec<Blob>, Memory>
    requires there { (f : ℕ) → has (files_of plan.now (writes plan.now task.0)) f ≡ true
        → is_some (at table f) ≡ true }
    requires once { AreOnce (files_of plan.now (writes plan.now task.0)) }
    ensures { IfOk result (λ v. map (at table) (files_of plan.now (writes plan.now task.0))
        ≡ map Some v.items) }
{
    let files = pair_files(alloc, plan, plan.writes(task))?;
    table.take_all(alloc, &files)
}

/// What a Run makes of the bytes that it reads: one output for each of its writes, in order.
pub(crate) fn compute<T: Tool>(
    alloc: Global,
    plan: &Plan,
    task: TaskId,
    blobs: Vec<Blob>,
    tool: &mut T,
) -> Result<Vec<Blob>, Cause>
    requires proper { IsProper plan.now }
    requires run { is_run plan.now task.0 ≡ true }
    ensures answer { Computes T.apply plan.now task.0 blobs.items (T.faults tool.old)
        (T.faults tool.new) result }
    ensures tool { T.faults tool.old ≤ T.faults tool.new }
    ensures runs { T.runs tool.new ≤ T.runs tool.old + length (jobs_in (kind plan.now task.0)) }
{
    // Laws for the proof: they do nothing.
    files_are_listed_by_pair();
    pairs_stand_once();
    let mut table = match table_of(alloc, plan, task, blobs) {
        Ok(table) => table,
        Err(_) => return Err(Cause::Memory),
    };
    match run_jobs(alloc, plan, jobs_of(plan, task), &mut table, tool) {
        Ok(()) => {}
        Err(cause) => return Err(cause),
    }
    match outputs_of(alloc, plan, task, table) {
        Ok(outputs) => Ok(outputs),
        Err(_) => Err(Cause::Memory),
    }
}
