//! Whether a cause fits a task that failed.

ghost use Rattle.std.specs.Prelude.{◌≡◌, ◌==◌, [], Decides};
ghost use Rattle.std.specs.List.{list_any};
ghost use Rattle.values.specs.declared.numbers.FileId.{FileId};
ghost use Rattle.values.specs.declared.numbers.JobId.{JobId};
ghost use Rattle.plan_core.specs.Numbers.{has};
ghost use Rattle.plan_core.specs.Words.{file_numbers, job_numbers, kind, outputs};
ghost use Rattle.run_record.specs.code.Events.{may_publish};
ghost use Rattle.lease_rules.specs.Legal.{CauseFits, checksum, differs_from, has_job, is_from_pfn, is_too_long, is_too_long_for, is_wrong_for};
ghost use Rattle.record_audit.specs.Causes.{is_oversize};

use lease_book::Book;
use plan_core::{Plan, Source, TaskKind};
use run_record::Cause;
use values::{FileId, JobId, TaskId};

/// Whether a task is a Transfer from a pfn.
fn is_from_pfn(plan: &Plan, task: TaskId) -> bool
    ensures { result ≡ is_from_pfn (kind plan.now task.0) }
{
    matches!(
        plan.kind(task),
        Some(TaskKind::Transfer {
            from: Source::Pfn(_),
            ..
        })
    )
}

/// Whether so many bytes are more than a file's declared size.
fn is_too_long(plan: &Plan, file: FileId, length: u64) -> bool
    ensures { result ≡ is_too_long plan.now file.0 length }
{
    match plan.declared(file) {
        Some(declared) => declared < length,
        None => 0 < length,
    }
}

/// Whether so many bytes are too long for the file that a Transfer moves.
fn is_too_long_for(plan: &Plan, task: TaskId, length: u64) -> bool
    ensures { result ≡ is_too_long_for plan.now (kind plan.now task.0) length }
{
    match plan.kind(task) {
        Some(TaskKind::Transfer { file, .. }) => is_too_long(plan, *file, length),
        _ => false,
    }
}

/// The checksum that is registered for a file.
#[tactic(auto, unfolding(lease_rules::specs::Legal::checksum))]
fn checksum(plan: &Plan, file: FileId) -> Option<[u8; 32]>
    ensures { result ≡ checksum plan.now file.0 }
{
    match plan.files.as_slice().get(file.0 as usize) {
        Some(found) => found.checksum,
        None => None,
    }
}

/// Whether a digest differs from the one that is registered for a file.
fn differs(plan: &Plan, file: FileId, digest: &[u8; 32]) -> bool
    ensures { result ≡ differs_from (checksum plan.now file.0) digest.now }
{
    match checksum(plan, file) {
        Some(wanted) => wanted.as_slice() != digest.as_slice(),
        None => false,
    }
}

/// Whether a digest is wrong for the file that a Transfer moves.
fn is_wrong_for(plan: &Plan, task: TaskId, digest: &[u8; 32]) -> bool
    ensures { result ≡ is_wrong_for plan.now (kind plan.now task.0) digest.now }
{
    match plan.kind(task) {
        Some(TaskKind::Transfer { file, .. }) => differs(plan, *file, digest),
        _ => false,
    }
}

/// Whether one of some jobs has a number.
fn finds_job(jobs: &[JobId], job: JobId) -> bool
    ensures { result ≡ list_any (λ (j : JobId). j.0 == job.0) jobs.now }
{
    jobs.iter().any(|found| found.0 == job.0)
}

/// Whether a job is among some.
#[tactic(auto, using(crate::proofs::CauseLemmas::has_job_in))]
fn is_job_among(jobs: &[JobId], job: JobId) -> bool
    ensures { result ≡ has (job_numbers jobs.now) job.0 }
{
    finds_job(jobs, job)
}

/// Whether a task is a Run that has a job.
fn has_job(plan: &Plan, task: TaskId, job: JobId) -> bool
    ensures { result ≡ has_job (kind plan.now task.0) job.0 }
{
    match plan.kind(task) {
        Some(TaskKind::Run { jobs, .. }) => is_job_among(jobs.as_slice(), job),
        _ => false,
    }
}

/// Whether one of some files has a number.
fn finds_file(files: &[FileId], file: FileId) -> bool
    ensures { result ≡ list_any (λ (f : FileId). f.0 == file.0) files.now }
{
    files.iter().any(|found| found.0 == file.0)
}

/// Whether a file is among some.
#[tactic(auto, using(crate::proofs::CauseLemmas::has_file_in))]
fn is_file_among(files: &[FileId], file: FileId) -> bool
    ensures { result ≡ has (file_numbers files.now) file.0 }
{
    finds_file(files, file)
}

/// Whether a job makes a file.
#[tactic(auto, unfolding(plan_core::specs::Words::outputs))]
fn is_output(plan: &Plan, job: JobId, file: FileId) -> bool
    ensures { result ≡ has (outputs plan.now.jobs job.0) file.0 }
{
    match plan.jobs.as_slice().get(job.0 as usize) {
        Some(found) => is_file_among(found.outputs.as_slice(), file),
        None => false,
    }
}

/// Whether a file that a job of a task makes is too long.
fn is_oversize(plan: &Plan, task: TaskId, job: JobId, file: FileId, length: u64) -> bool
    ensures { result ≡ is_oversize plan.now task.0 job.0 file.0 length }
{
    has_job(plan, task, job) && (is_output(plan, job, file) && is_too_long(plan, file, length))
}

/// Whether a cause with which nothing is published fits a task.
fn is_alone_for(plan: &Plan, task: TaskId, cause: &Cause) -> bool
    ensures { Decides result (CauseFits plan.now task.0 cause.now []) }
{
    match cause {
        Cause::Absent => is_from_pfn(plan, task),
        Cause::TooLong(length) => is_from_pfn(plan, task) && is_too_long_for(plan, task, *length),
        Cause::Checksum(digest) => is_from_pfn(plan, task) && is_wrong_for(plan, task, digest),
        Cause::Oversize(job, file, length) => is_oversize(plan, task, *job, *file, *length),
        Cause::Declined(job) | Cause::ToolFailed(job) => has_job(plan, task, *job),
        Cause::HostFailed | Cause::Memory => true,
    }
}

/// Whether sizes of published files may stand with a cause.
fn may_publish(cause: &Cause) -> bool
    ensures { result ≡ may_publish cause.now }
{
    matches!(cause, Cause::HostFailed | Cause::Memory)
}

/// Whether a cause fits a task, with the sizes of what the task had published.
pub(crate) fn cause_fits(
    plan: &Plan,
    book: &Book,
    task: TaskId,
    cause: &Cause,
    published: &[u64],
) -> bool
    requires { book.now.plan ≡ plan.now }
    ensures { Decides result (CauseFits plan.now task.0 cause.now published.now) }
{
    if may_publish(cause) {
        return book.may_have_published(task, published);
    }
    if !published.is_empty() {
        return false;
    }
    is_alone_for(plan, task, cause)
}
