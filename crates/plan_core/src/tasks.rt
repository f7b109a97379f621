//! Whether each task is proper by itself: what it reads and writes, its jobs' order, and sizes.

ghost use Rattle.std.specs.Prelude.{◌≡◌, ◌&&◌, ◌++◌, ℕ, [], true, Some, slice_get, IfOk, OnOk};
ghost use Rattle.std.specs.Bool.{Decides};
ghost use Rattle.plan_core.specs.code.Tasks.{are_fresh, are_jobs_sized, have_sizes, HasReads, HasWrites, in_sequence, is_kind_sized, kind_in_sequence, with_all};
ghost use Rattle.plan_core.specs.code.Files.{are_pairs};
ghost use Rattle.plan_core.specs.code.Proper.{are_rising, IsTask};
ghost use Rattle.plan_core.specs.Words.{file_numbers, reads_in, writes_in};

use crate::files::{SiteFiles, are_pairs, files_read, files_written, inputs, outputs};
use crate::plan::{Plan, PlanJob, Task, TaskKind};
use indexmap::IndexSet;
use std::alloc::Global;
use values::{FileId, JobId, Memory};

/// Adds files to those that are known.
fn note(known: &mut IndexSet<u32>, files: &[FileId]) -> Result<(), Memory>
    ensures { OnOk result (known.new.keys ≡ with_all known.old.keys (file_numbers files.now)) }
{
    for file in files {
        if !known.contains(&file.0) {
            known.insert(file.0)?;
        }
    }
    Ok(())
}

/// Adds files, unless one of them is known already.
fn adds_new(known: &mut IndexSet<u32>, files: &[FileId]) -> Result<bool, Memory>
    ensures fresh { IfOk result (λ b. b ≡ are_fresh known.old.keys (file_numbers files.now)) }
    ensures added { IfOk result (λ b. b ≡ true → known.new.keys ≡ known.old.keys ++ file_numbers files.now) }
{
    for file in files {
        if known.contains(&file.0) {
            return Ok(false);
        }
        known.insert(file.0)?;
    }
    Ok(true)
}

fn in_sequence(alloc: Global, jobs: &[PlanJob], some: &[JobId]) -> Result<bool, Memory>
    ensures { IfOk result (λ b. b ≡ in_sequence jobs.now [] some.now) }
{
    let mut known: IndexSet<u32> = IndexSet::new(alloc);
    for job in some {
        note(&mut known, inputs(jobs, *job))?;
        if !adds_new(&mut known, outputs(jobs, *job))? {
            return Ok(false);
        }
    }
    Ok(true)
}

fn kind_in_sequence(alloc: Global, jobs: &[PlanJob], kind: &TaskKind) -> Result<bool, Memory>
    ensures { IfOk result (λ b. b ≡ kind_in_sequence jobs.now kind.now) }
{
    match kind {
        TaskKind::Run { jobs: some, .. } => in_sequence(alloc, jobs, some.as_slice()),
        _ => Ok(true),
    }
}

fn have_sizes(plan: &Plan, files: &[FileId]) -> bool
    ensures { result ≡ have_sizes plan.now (file_numbers files.now) }
{
    for file in files {
        if plan.declared(*file).is_none() {
            return false;
        }
    }
    true
}

fn are_jobs_sized(plan: &Plan, jobs: &[JobId]) -> bool
    ensures { result ≡ are_jobs_sized plan.now jobs.now }
{
    let all = plan.jobs.as_slice();
    jobs.iter().all(|job| have_sizes(plan, outputs(all, *job)))
}

fn is_kind_sized(plan: &Plan, kind: &TaskKind) -> bool
    ensures { result ≡ is_kind_sized plan.now kind.now }
{
    match kind {
        TaskKind::Transfer { file, .. } => plan.declared(*file).is_some(),
        TaskKind::Run { jobs, .. } => are_jobs_sized(plan, jobs.as_slice()),
        TaskKind::Clean { .. } => true,
    }
}

fn reads_fit(plan: &Plan, task: &Task, read: &SiteFiles) -> bool
    ensures { result ≡ are_pairs plan.now.pairs read.now.site.0
        (reads_in (Some task.now)) read.now.files.items }
{
    are_pairs(plan.pairs.as_slice(), task.reads.as_slice(), read)
}

fn writes_fit(plan: &Plan, task: &Task, written: &SiteFiles) -> bool
    ensures { result ≡ are_pairs plan.now.pairs written.now.site.0
        (writes_in (Some task.now)) written.now.files.items }
{
    are_pairs(plan.pairs.as_slice(), task.writes.as_slice(), written)
}

fn reads_are_right(alloc: Global, plan: &Plan, task: &Task) -> Result<bool, Memory>
    requires { are_rising plan.now.pairs ≡ true }
    ensures { IfOk result (λ b. Decides b (HasReads plan.now (Some task.now))) }
{
    let read = files_read(alloc, plan.jobs.as_slice(), &task.kind)?;
    Ok(reads_fit(plan, task, &read))
}

fn writes_are_right(alloc: Global, plan: &Plan, task: &Task) -> Result<bool, Memory>
    requires { are_rising plan.now.pairs ≡ true }
    ensures { IfOk result (λ b. Decides b (HasWrites plan.now (Some task.now))) }
{
    let written = files_written(alloc, plan.jobs.as_slice(), &task.kind)?;
    Ok(writes_fit(plan, task, &written))
}

/// Whether all of these hold.
fn all_four(first: bool, second: bool, third: bool, fourth: bool) -> bool
    ensures { result ≡ (first && (second && (third && fourth))) }
{
    first && second && third && fourth
}

fn is_task(alloc: Global, plan: &Plan, task: &Task) -> Result<bool, Memory>
    requires { are_rising plan.now.pairs ≡ true }
    ensures { IfOk result (λ b. Decides b (IsTask plan.now (Some task.now))) }
{
    let reads = reads_are_right(alloc, plan, task)?;
    let writes = writes_are_right(alloc, plan, task)?;
    let sequence = kind_in_sequence(alloc, plan.jobs.as_slice(), &task.kind)?;
    let sized = is_kind_sized(plan, &task.kind);
    Ok(all_four(reads, writes, sequence, sized))
}

/// Whether each task is proper by itself.
pub fn are_tasks(alloc: Global, plan: &Plan) -> Result<bool, Memory>
    requires { are_rising plan.now.pairs ≡ true }
    ensures { IfOk result (λ b. Decides b ((t : ℕ) → IsTask plan.now (slice_get plan.now.tasks t))) }
{
    for task in plan.tasks.as_slice() {
        let right = is_task(alloc, plan, task)?;
        if !right {
            return Ok(false);
        }
    }
    Ok(true)
}
