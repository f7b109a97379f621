//! Jobs of one label, put together.

ghost use Rattle.std.specs.Prelude.{◌≡◌, ◌≤◌, ℕ, [], None, Some, length, if◌then◌else◌, slice_index_or, IfOk};
ghost use Rattle.std.specs.List.{list_any};
ghost use Rattle.values.specs.declared.numbers.JobId.{JobId};
ghost use Rattle.dependency_graph.specs.code.Graph.{job_lists};
ghost use Rattle.clustering.specs.code.Labels.{first_of, holder, holder_in};
ghost use Rattle.clustering.specs.Labels.{labels_of};
ghost use Rattle.clustering.specs.code.Runs.{IsGroup};
ghost use Rattle.clustering.specs.Runs.{is_job};

use crate::basis::Basis;
use crate::gathering::gather;
use std::alloc::Global;
use values::{JobId, Memory};

/// The jobs of each label, and each job without one, in lists.
#[tactic(auto, unfolding(crate::specs::Labels::labels_of))]
pub fn labels_of(
    alloc: Global,
    basis: &Basis<'_>,
    jobs: &[JobId],
) -> Result<Vec<Vec<JobId>>, Memory>
    ensures { IfOk result (λ v. job_lists v.items ≡ labels_of basis.now jobs.now) }
{
    let mut keyed = Vec::new(alloc);
    for job in jobs {
        keyed.push((*job, basis.label_key(alloc, *job)?))?;
    }
    let parts = gather(alloc, keyed)?;
    Ok(parts)
}

/// Notes the jobs of a part.
fn note_part(holders: &mut Vec<Option<u32>>, part: &[JobId], number: u32)
    requires { IsGroup (length holders.old.items) part.now }
    ensures long { length holders.new.items ≡ length holders.old.items }
    ensures noted { (j : JobId) → holder_in holders.new.items j
        ≡ (if list_any (is_job j) part.now then Some number else holder_in holders.old.items j) }
{
    for job in part {
        holders[job.0 as usize] = Some(number);
    }
}

/// For each job the number of the part that holds it.
pub fn holder_table(
    alloc: Global,
    parts: &[Vec<JobId>],
    jobs: usize,
) -> Result<Vec<Option<u32>>, Memory>
    requires few { length parts.now ≤ 10000 }
    requires each { (k : ℕ) → IsGroup jobs (slice_index_or (job_lists parts.now) k []) }
    ensures { IfOk result (λ v. (j : JobId) → holder_in v.items j ≡ holder (job_lists parts.now) j) }
{
    let mut holders = vec![in alloc; None; jobs]?;
    let mut left = parts.len();
    while left > 0 {
        left -= 1;
        note_part(&mut holders, &parts[left], left as u32);
    }
    Ok(holders)
}

/// The part that holds a job, by the table.
pub fn holder_in(holders: &[Option<u32>], job: JobId) -> Option<u32>
    ensures { result ≡ holder_in holders.now job }
{
    match holders.get(job.0 as usize) {
        Some(holder) => *holder,
        None => None,
    }
}

/// The first job of a part.
pub fn first_of(parts: &[Vec<JobId>], part: Option<u32>) -> Option<JobId>
    ensures { result ≡ first_of (job_lists parts.now) part }
{
    match part {
        Some(part) => match parts.get(part as usize) {
            Some(jobs) => match jobs.first() {
                Some(first) => Some(*first),
                None => None,
            },
            None => None,
        },
        None => None,
    }
}
