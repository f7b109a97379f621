//! Why a run failed.

ghost use Rattle.std.specs.Prelude.{◌≡◌, IfOk};
ghost use Rattle.plan_core.specs.Words.{declared, kind};
ghost use Rattle.storage_simulation.specs.Goods.{or_zero};
ghost use Rattle.run_record.specs.declared.entry.Cause.TheVariants as why;
ghost use Rattle.run_record.specs.code.Events.{event};
ghost use Rattle.lease_rules.specs.Legal.{checksum};
ghost use Rattle.run_record.specs.declared.run_fault.RunFault.TheVariants.{Oversize};
ghost use Rattle.plan_core.specs.Names.{file_name};
ghost use Rattle.site_yard.specs.code.Ending.{failed_in, fault_of, first_failed, job_name, moved_file, registered, source_pfn};

use crate::names::{declared_size, file_name};
use outside::{FileId, JobId, Memory, TaskId, Text};
use plan_core::{Plan, Source, TaskKind};
use run_record::{Cause, Entry, Record, RunFault};
use std::alloc::Global;

/// A failed task, and its cause.
#[derive(Clone, Copy)]
pub struct Failed {
    pub task: TaskId,
    pub cause: Cause,
}

/// The id of a job.
#[tactic(auto, unfolding(crate::specs::code::Ending::job_name))]
fn job_name(plan: &Plan, job: JobId) -> &str
    ensures { result.now ≡ job_name plan.now job.0 }
{
    match plan.jobs.as_slice().get(job.0 as usize) {
        Some(found) => found.id.as_str(),
        None => "",
    }
}

/// The checksum that is registered for a file.
#[tactic(auto, unfolding(lease_rules::specs::Legal::checksum))]
fn checksum(plan: &Plan, file: FileId) -> Option<[u8; 32]>
    ensures { result ≡ checksum plan.now file.0 }
{
    match plan.files.as_slice().get(file.0 as usize) {
        Some(found) => found.checksum,
        None => None,
    }
}

/// The file that a Transfer moves.
fn moved_file(plan: &Plan, task: TaskId) -> FileId
    ensures { result.0 ≡ moved_file (kind plan.now task.0) }
{
    match plan.kind(task) {
        Some(TaskKind::Transfer { file, .. }) => *file,
        _ => FileId(0),
    }
}

/// The pfn from which a Transfer takes its file.
fn source_pfn(plan: &Plan, task: TaskId) -> &str
    ensures { result.now ≡ source_pfn (kind plan.now task.0) }
{
    match plan.kind(task) {
        Some(
            TaskKind::Transfer {
                from: Source::Pfn(pfn),
                ..
            },
        ) => pfn.as_str(),
        _ => "",
    }
}

/// The checksum that is registered for a file, else the one that was found.
fn registered(plan: &Plan, file: FileId, found: [u8; 32]) -> [u8; 32]
    ensures { result ≡ registered found (checksum plan.now file.0) }
{
    match checksum(plan, file) {
        Some(wanted) => wanted,
        None => found,
    }
}

fn absent(plan: &Plan, alloc: Global, task: TaskId) -> Result<RunFault, Memory>
    ensures { IfOk result (λ f. f ≡ fault_of plan.now task why.Absent) }
{
    let name = Text::copy_of(alloc, file_name(plan, moved_file(plan, task)))?;
    let pfn = Text::copy_of(alloc, source_pfn(plan, task))?;
    Ok(RunFault::ReplicaAbsent(name, pfn))
}

fn too_long(plan: &Plan, alloc: Global, task: TaskId, length: u64) -> Result<RunFault, Memory>
    ensures { IfOk result (λ f. f ≡ fault_of plan.now task (why.TooLong length)) }
{
    let file = moved_file(plan, task);
    let name = Text::copy_of(alloc, file_name(plan, file))?;
    Ok(RunFault::ReplicaTooLong(name, declared_size(plan, file), length))
}

fn differs(plan: &Plan, alloc: Global, task: TaskId, found: [u8; 32]) -> Result<RunFault, Memory>
    ensures { IfOk result (λ f. f ≡ fault_of plan.now task (why.Checksum found)) }
{
    let file = moved_file(plan, task);
    let name = Text::copy_of(alloc, file_name(plan, file))?;
    Ok(RunFault::ChecksumDiffers(name, registered(plan, file, found), found))
}

fn oversize(
    plan: &Plan,
    alloc: Global,
    job: JobId,
    file: FileId,
    length: u64,
) -> Result<RunFault, Memory>
    ensures { IfOk result (λ f. f ≡ Oversize (job_name plan.now job.0) (file_name plan.now file.0)
        (or_zero (declared plan.now file.0)) length) }
{
    let id = Text::copy_of(alloc, job_name(plan, job))?;
    let name = Text::copy_of(alloc, file_name(plan, file))?;
    Ok(RunFault::Oversize(id, name, declared_size(plan, file), length))
}

/// The fault of a failed task.
pub(crate) fn run_fault(
    plan: &Plan,
    alloc: Global,
    task: TaskId,
    cause: &Cause,
) -> Result<RunFault, Memory>
    ensures { IfOk result (λ f. f ≡ fault_of plan.now task cause.now) }
{
    match cause {
        Cause::Absent => absent(plan, alloc, task),
        Cause::TooLong(length) => too_long(plan, alloc, task, *length),
        Cause::Checksum(found) => differs(plan, alloc, task, *found),
        Cause::Oversize(job, file, length) => oversize(plan, alloc, *job, *file, *length),
        Cause::Declined(job) => {
            let id = Text::copy_of(alloc, job_name(plan, *job))?;
            Ok(RunFault::Declined(id))
        }
        Cause::ToolFailed(job) => {
            let id = Text::copy_of(alloc, job_name(plan, *job))?;
            Ok(RunFault::ToolFailed(id))
        }
        Cause::HostFailed => Ok(RunFault::HostFailed(Some(task))),
        Cause::Memory => Ok(RunFault::Memory),
    }
}

/// The task of a Fail.
fn failed_in(entry: &Entry<'_>) -> Option<Failed>
    ensures { result ≡ failed_in (event entry.now) }
{
    match entry {
        Entry::Fail { task, cause, .. } => Some(Failed {
            task: *task,
            cause: *cause,
        }),
        Entry::Grant { .. } => None,
        Entry::Arrive { .. } => None,
        Entry::End { .. } => None,
        Entry::Clean { .. } => None,
        Entry::Again { .. } => None,
        Entry::Regrant { .. } => None,
    }
}

/// The task of the first Fail.
pub(crate) fn first_failed(history: &Record) -> Option<Failed>
    ensures { result ≡ first_failed history.now.events }
{
    for k in 0..history.len() {
        let entry = history.entry(k);
        match failed_in(&entry) {
            Some(failed) => return Some(failed),
            None => {}
        }
    }
    None
}
