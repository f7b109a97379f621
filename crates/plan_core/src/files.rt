//! The files that a task reads and writes, by its kind.

ghost use Rattle.std.specs.Prelude.{◌≡◌, ◌++◌, ◌∷◌, [], Some, IfOk, OnOk, slice_get};
ghost use Rattle.plan_core.specs.code.Files.{AreFilesOf, all_inputs, all_outputs, are_pairs};
ghost use Rattle.plan_core.specs.Kinds.{kind_reads, kind_writes};
ghost use Rattle.plan_core.specs.code.Numbers.{RisesFrom};
ghost use Rattle.plan_core.specs.Words.{file_numbers, inputs, outputs, pair_numbers};
ghost use Rattle.plan_core.specs.code.Words.{pair_at};

use crate::plan::{Pair, PlanJob, Source, Target, TaskKind};
use crate::rising::{difference, sorted};
use std::alloc::Global;
use values::{FileId, Items, JobId, Memory, PairId, SiteId};

/// Numbers of files at a site, in rising order.
#[derive(Drop)]
pub struct SiteFiles {
    pub site: SiteId,
    pub files: Vec<u32>,
}

/// The files that a job reads.
#[tactic(auto, unfolding(crate::specs::Words::inputs))]
pub fn inputs(jobs: &[PlanJob], job: JobId) -> &[FileId]
    ensures { file_numbers result.now ≡ inputs jobs.now job.0 }
{
    match jobs.get(job.0 as usize) {
        Some(found) => found.inputs.as_slice(),
        None => &[],
    }
}

/// The files that a job makes.
#[tactic(auto, unfolding(crate::specs::Words::outputs))]
pub fn outputs(jobs: &[PlanJob], job: JobId) -> &[FileId]
    ensures { file_numbers result.now ≡ outputs jobs.now job.0 }
{
    match jobs.get(job.0 as usize) {
        Some(found) => found.outputs.as_slice(),
        None => &[],
    }
}

fn push_files(list: &mut Vec<u32>, files: &[FileId]) -> Result<(), Memory>
    ensures { OnOk result (list.new.items ≡ list.old.items ++ file_numbers files.now) }
{
    for file in files {
        list.push(file.0)?;
    }
    Ok(())
}

fn all_inputs(alloc: Global, jobs: &[PlanJob], some: &[JobId]) -> Result<Vec<u32>, Memory>
    ensures { IfOk result (λ v. v.items ≡ all_inputs jobs.now some.now) }
{
    let mut files = Vec::new(alloc);
    for job in some {
        push_files(&mut files, inputs(jobs, *job))?;
    }
    Ok(files)
}

fn all_outputs(alloc: Global, jobs: &[PlanJob], some: &[JobId]) -> Result<Vec<u32>, Memory>
    ensures { IfOk result (λ v. v.items ≡ all_outputs jobs.now some.now) }
{
    let mut files = Vec::new(alloc);
    for job in some {
        push_files(&mut files, outputs(jobs, *job))?;
    }
    Ok(files)
}

/// What a Run of some jobs at a site reads.
fn run_reads(
    alloc: Global,
    jobs: &[PlanJob],
    site: SiteId,
    some: &Items<JobId>,
) -> Result<SiteFiles, Memory>
    ensures { IfOk result (AreFilesOf (kind_reads jobs.now (Some (TaskKind.Run site some.now)))) }
{
    let used = sorted(all_inputs(alloc, jobs, some.as_slice())?);
    let made = sorted(all_outputs(alloc, jobs, some.as_slice())?);
    let files = difference(alloc, &used, &made)?;
    Ok(SiteFiles { site, files })
}

/// What a Run of some jobs at a site writes.
fn run_writes(
    alloc: Global,
    jobs: &[PlanJob],
    site: SiteId,
    some: &Items<JobId>,
) -> Result<SiteFiles, Memory>
    ensures { IfOk result (AreFilesOf (kind_writes jobs.now (Some (TaskKind.Run site some.now)))) }
{
    let files = sorted(all_outputs(alloc, jobs, some.as_slice())?);
    Ok(SiteFiles { site, files })
}

fn one_file(alloc: Global, site: SiteId, file: FileId) -> Result<SiteFiles, Memory>
    ensures { IfOk result (λ found. (found.site ≡ site) × (found.files.items ≡ file.0 ∷ [])) }
{
    let mut files = Vec::new(alloc);
    files.push(file.0)?;
    Ok(SiteFiles { site, files })
}

fn no_files(alloc: Global) -> SiteFiles
    ensures { result.files.items ≡ [] }
{
    SiteFiles {
        site: SiteId(0),
        files: Vec::new(alloc),
    }
}

/// The files that a task of a kind reads, and at which site.
pub fn files_read(alloc: Global, jobs: &[PlanJob], kind: &TaskKind) -> Result<SiteFiles, Memory>
    ensures { IfOk result (AreFilesOf (kind_reads jobs.now (Some kind.now))) }
{
    match kind {
        TaskKind::Transfer {
            file,
            from: Source::Site(home),
            ..
        } => one_file(alloc, *home, *file),
        TaskKind::Transfer { .. } => Ok(no_files(alloc)),
        TaskKind::Run { site, jobs: some } => run_reads(alloc, jobs, *site, some),
        TaskKind::Clean { .. } => Ok(no_files(alloc)),
    }
}

/// The files that a task of a kind writes, and at which site.
pub fn files_written(alloc: Global, jobs: &[PlanJob], kind: &TaskKind) -> Result<SiteFiles, Memory>
    ensures { IfOk result (AreFilesOf (kind_writes jobs.now (Some kind.now))) }
{
    match kind {
        TaskKind::Transfer {
            file,
            to: Target::Site(there),
            ..
        } => one_file(alloc, *there, *file),
        TaskKind::Transfer { .. } => Ok(no_files(alloc)),
        TaskKind::Run { site, jobs: some } => run_writes(alloc, jobs, *site, some),
        TaskKind::Clean { .. } => Ok(no_files(alloc)),
    }
}

fn is_pair_at(pairs: &[Pair], pair: PairId, site: SiteId, file: u32) -> bool
    ensures { result ≡ pair_at (slice_get pairs.now pair.0) site.0 file }
{
    match pairs.get(pair.0 as usize) {
        Some(found) => found.site.0 == site.0 && found.file.0 == file,
        None => false,
    }
}

/// Whether the pairs with these numbers are these files, one by one.
pub fn are_pairs(pairs: &[Pair], listed: &[PairId], found: &SiteFiles) -> bool
    ensures { result ≡ are_pairs pairs.now found.now.site.0 (pair_numbers listed.now) found.now.files.items }
{
    let mut left = found.files.as_slice();
    for pair in listed {
        match left {
            [file, rest @ ..] => {
                if !is_pair_at(pairs, *pair, found.site, *file) {
                    return false;
                }
                left = rest;
            }
            [] => return false,
        }
    }
    left.is_empty()
}
