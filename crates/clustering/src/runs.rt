//! Groups of jobs, cut into runs.

ghost use Rattle.std.specs.Prelude.{◌≡◌, ◌<◌, ◌≤◌, ◌+◌, ℕ, suc, [], length, if◌then◌else◌, slice_index_or, IfOk, IfSome};
ghost use Rattle.std.specs.List.{list_any};
ghost use Rattle.values.specs.declared.numbers.JobId.{JobId};
ghost use Rattle.dependency_graph.specs.code.Graph.{job_lists};
ghost use Rattle.clustering.specs.Basis.{same_group};
ghost use Rattle.clustering.specs.Gathering.{gathered};
ghost use Rattle.clustering.specs.code.Runs.{IsGroup};
ghost use Rattle.clustering.specs.Runs.{is_job, run_among, run_from, run_in, run_length, runs_of};

use crate::basis::Basis;
use crate::gathering::gather;
use crate::numbers::Numbers;
use std::alloc::Global;
use values::{JobId, Memory};

/// The jobs of one level, site and transformation, in lists.
fn groups(alloc: Global, basis: &Basis<'_>, jobs: &[JobId]) -> Result<Vec<Vec<JobId>>, Memory>
    ensures { IfOk result (λ v. job_lists v.items ≡ gathered (same_group basis.now) jobs.now) }
{
    let mut keyed = Vec::new(alloc);
    for job in jobs {
        keyed.push((*job, basis.group(*job)))?;
    }
    let groups = gather(alloc, keyed)?;
    Ok(groups)
}

/// How many jobs are in a run of a group of so many jobs.
fn run_length(numbers: Numbers, jobs: u32, run: u32) -> u32
    requires jobs { 0 < jobs }
    requires positive { IfSome numbers.num (λ n. 0 < n) }
    ensures { result ≡ run_length numbers jobs run }
{
    match numbers.num {
        Some(num) => {
            let runs = num.min(jobs);
            if run < jobs % runs {
                jobs / runs + 1
            } else {
                jobs / runs
            }
        }
        None => match numbers.size {
            Some(size) => size,
            None => 1,
        },
    }
}

/// The run of the next job of a group, and how many jobs are left of that run.
fn following(numbers: Numbers, jobs: u32, run: u32, left: u32) -> (u32, u32)
    requires jobs { 0 < jobs }
    requires few { run < 10000 }
    requires positive { IfSome numbers.num (λ n. 0 < n) }
    ensures runs { (p : ℕ) → run_from numbers jobs result.0 result.1 p
        ≡ run_from numbers jobs run left (suc p) }
    ensures slow { result.0 ≤ run + 1 }
{
    if left <= 1 {
        (run + 1, run_length(numbers, jobs, run + 1))
    } else {
        (run, left - 1)
    }
}

/// Notes the run of each job of a group.
fn note_runs(runs: &mut Vec<u32>, group: &[JobId], numbers: Numbers)
    requires group { IsGroup (length runs.old.items) group.now }
    requires positive { IfSome numbers.num (λ n. 0 < n) }
    ensures long { length runs.new.items ≡ length runs.old.items }
    ensures noted { (j : JobId) → slice_index_or runs.new.items j.0 0
        ≡ (if list_any (is_job j) group.now then run_in numbers group.now j
        else slice_index_or runs.old.items j.0 0) }
{
    if group.is_empty() {
        return;
    }
    let jobs = group.len() as u32;
    let mut run = 0;
    let mut left = run_length(numbers, jobs, 0);
    for job in group {
        runs[job.0 as usize] = run;
        (run, left) = following(numbers, jobs, run, left);
    }
}

/// For each job its run in its group.
fn run_table(
    alloc: Global,
    basis: &Basis<'_>,
    groups: &[Vec<JobId>],
    jobs: usize,
) -> Result<Vec<u32>, Memory>
    requires { (k : ℕ) → IsGroup jobs (slice_index_or (job_lists groups.now) k []) }
    ensures { IfOk result (λ v. (j : JobId)
        → slice_index_or v.items j.0 0 ≡ run_among basis.now (job_lists groups.now) j) }
{
    let mut runs = vec![in alloc; 0; jobs]?;
    let mut left = groups.len();
    while left > 0 {
        left -= 1;
        let group = &groups[left];
        note_runs(&mut runs, group, basis.numbers(group));
    }
    Ok(runs)
}

fn run_at(runs: &[u32], job: JobId) -> u32
    ensures { result ≡ slice_index_or runs.now job.0 0 }
{
    match runs.get(job.0 as usize) {
        Some(run) => *run,
        None => 0,
    }
}

/// The jobs of one run of one group, in lists. There are so many jobs in the workflow.
#[tactic(auto, unfolding(crate::specs::Runs::runs_of))]
pub fn runs_of(
    alloc: Global,
    basis: &Basis<'_>,
    jobs: &[JobId],
    all: usize,
) -> Result<Vec<Vec<JobId>>, Memory>
    requires { (k : ℕ) → IsGroup all (slice_index_or (gathered (same_group basis.now) jobs.now) k []) }
    ensures { IfOk result (λ v. job_lists v.items ≡ runs_of basis.now jobs.now) }
{
    let groups = groups(alloc, basis, jobs)?;
    let runs = run_table(alloc, basis, &groups, all)?;
    let mut keyed = Vec::new(alloc);
    for job in jobs {
        keyed.push((*job, (basis.group(*job), run_at(&runs, *job))))?;
    }
    let parts = gather(alloc, keyed)?;
    Ok(parts)
}
