//! Outputs of a Run that are longer than declared.

ghost use Rattle.std.specs.Prelude.{◌≡◌, ◌==◌, length, true, MatchOption};
ghost use Rattle.std.specs.List.{list_any};
ghost use Rattle.values.specs.declared.numbers.FileId.{FileId};
ghost use Rattle.plan_core.specs.Numbers.{has};
ghost use Rattle.plan_core.specs.code.Kinds.{carries};
ghost use Rattle.plan_core.specs.Kinds.{jobs_make};
ghost use Rattle.plan_core.specs.code.Proper.{IsProper};
ghost use Rattle.plan_core.specs.Words.{file_numbers, is_run, job_numbers, kind, outputs, pair_numbers, writes};
ghost use Rattle.lease_rules.specs.Legal.{has_job};
ghost use Rattle.lease_rules.specs.code.Storing.{AreWithin, IsFirstPast, IsOverlong};

use crate::names::{pair_file, pair_limit};
use outside::{Blob, FileId, JobId, PairId, TaskId};
use plan_core::{Plan, PlanJob, TaskKind, files_are_listed_by_pair};

/// An output that is longer than its file's declared size, in bytes.
#[derive(Clone, Copy)]
pub(crate) struct Past {
    pub pair: PairId,
    pub length: u64,
}

/// The first output that is longer than the declared size of its pair's file.
pub(crate) fn first_past(plan: &Plan, pairs: &[PairId], outputs: &[Blob]) -> Option<Past>
    requires { length outputs.now ≡ length pairs.now }
    ensures { MatchOption result (AreWithin plan.now (pair_numbers pairs.now) outputs.now)
        (λ e. IsFirstPast plan.now (pair_numbers pairs.now) outputs.now e.pair.0 e.length) }
{
    for k in 0..pairs.len() {
        let length = outputs[k].as_slice().len() as u64;
        if length > pair_limit(plan, pairs[k]) {
            return Some(Past {
                pair: pairs[k],
                length,
            });
        }
    }
    None
}

fn finds_file(files: &[FileId], file: FileId) -> bool
    ensures { result ≡ list_any (λ (f : FileId). f.0 == file.0) files.now }
{
    files.iter().any(|found| found.0 == file.0)
}

/// Whether a file is among some.
#[tactic(auto, using(crate::proofs::OverlongLemmas::has_file))]
fn is_among(files: &[FileId], file: FileId) -> bool
    ensures { result ≡ has (file_numbers files.now) file.0 }
{
    finds_file(files, file)
}

/// Whether a job makes a file.
#[tactic(auto, unfolding(plan_core::specs::Words::outputs))]
fn makes_file(jobs: &[PlanJob], job: JobId, file: FileId) -> bool
    ensures { result ≡ has (outputs jobs.now job.0) file.0 }
{
    match jobs.get(job.0 as usize) {
        Some(found) => is_among(found.outputs.as_slice(), file),
        None => false,
    }
}

/// The first of some jobs that makes a file.
fn maker_among(jobs: &[PlanJob], some: &[JobId], file: FileId) -> JobId
    requires { jobs_make jobs.now some.now file.0 ≡ true }
    ensures job { has (job_numbers some.now) result.0 ≡ true }
    ensures made { has (outputs jobs.now result.0) file.0 ≡ true }
{
    for k in 0..some.len() {
        if makes_file(jobs, some[k], file) {
            return some[k];
        }
    }
    unreachable!()
}

/// The first job of a Run that makes a file.
fn maker(plan: &Plan, task: TaskId, file: FileId) -> JobId
    requires kind { is_run plan.now task.0 ≡ true }
    requires made { carries plan.now task.0 file.0 ≡ true }
    ensures job { has_job (kind plan.now task.0) result.0 ≡ true }
    ensures made { has (outputs plan.now.jobs result.0) file.0 ≡ true }
{
    match plan.kind(task) {
        Some(TaskKind::Run { jobs, .. }) => {
            maker_among(plan.jobs.as_slice(), jobs.as_slice(), file)
        }
        _ => unreachable!(),
    }
}

/// A Run's output that is longer than declared, in bytes, with a job that makes it.
#[derive(Clone, Copy)]
pub(crate) struct Overlong {
    pub job: JobId,
    pub file: FileId,
    pub length: u64,
}

/// The first output of a Run that is longer than declared.
pub(crate) fn find_overlong(plan: &Plan, task: TaskId, outputs: &[Blob]) -> Option<Overlong>
    requires proper { IsProper plan.now }
    requires kind { is_run plan.now task.0 ≡ true }
    requires many { length outputs.now ≡ length (writes plan.now task.0) }
    ensures { MatchOption result (AreWithin plan.now (writes plan.now task.0) outputs.now)
        (λ e. IsOverlong plan.now task.0 outputs.now e.job.0 e.file.0 e.length) }
{
    // A law for the proof: it does nothing.
    files_are_listed_by_pair();
    match first_past(plan, plan.writes(task), outputs) {
        Some(past) => {
            let file = pair_file(plan, past.pair);
            Some(Overlong {
                job: maker(plan, task, file),
                file,
                length: past.length,
            })
        }
        None => None,
    }
}
