//! Kept jobs of one level, site and transformation, put together in runs.

ghost use Rattle.std.specs.Prelude.{◌≡◌, ◌≤◌, length, IfOk};
ghost use Rattle.dependency_graph.specs.code.Built.{id_of};
ghost use Rattle.dependency_graph.specs.code.Graph.{job_lists};
ghost use Rattle.dependency_graph.specs.Ranking.{IsRanked};
ghost use Rattle.clustering.specs.code.Clusters.{ChecksNumbers, RunsAre};
ghost use Rattle.dependency_graph.specs.Graph.{numbers as job_numbers};

use crate::basis::Basis;
use crate::fault::ClusterFault;
use crate::runs::runs_of;
use std::alloc::Global;
use values::{Items, JobId, Memory, Text};
use workflow_core::{Clusters, Workflow};

/// The id of a job.
pub fn id_of(alloc: Global, workflow: &Workflow, job: JobId) -> Result<Text, Memory>
    ensures { IfOk result (λ id. id ≡ id_of workflow.now job.0) }
{
    match workflow.jobs.as_slice().get(job.0 as usize) {
        Some(found) => found.id.copied(alloc),
        None => Text::copy_of(alloc, ""),
    }
}

/// Refuses the first job that has a bad number.
#[tactic(auto, unfolding(crate::specs::code::Basis::first_bad))]
fn check_numbers(
    alloc: Global,
    workflow: &Workflow,
    basis: &Basis<'_>,
    jobs: &[JobId],
) -> Result<(), ClusterFault>
    ensures { ChecksNumbers workflow.now basis.now jobs.now result }
{
    for job in jobs {
        if let Some(key) = basis.bad_key(*job) {
            let id = id_of(alloc, workflow, *job)?;
            return Err(ClusterFault::BadNumber(id, Text::copy_of(alloc, key)?));
        }
    }
    Ok(())
}

/// Lists of jobs as clusters.
pub fn clusters_of(alloc: Global, parts: Vec<Vec<JobId>>) -> Result<Clusters, Memory>
    ensures { IfOk result (λ c. c.parts ≡ job_lists parts.items) }
{
    let mut clusters = Vec::new(alloc);
    for part in parts {
        clusters.push(Items::new(part))?;
    }
    Ok(Clusters {
        parts: Items::new(clusters),
    })
}

/// The runs of the kept jobs, which stand in order of (level, number), or the first bad number.
pub fn clusters_in_runs(
    alloc: Global,
    workflow: &Workflow,
    basis: &Basis<'_>,
    kept: &[bool],
    jobs: &[JobId],
) -> Result<Clusters, ClusterFault>
    requires few { length kept.now ≤ 10000 }
    requires ranked { IsRanked kept.now basis.now.levels (job_numbers jobs.now) }
    ensures { RunsAre workflow.now basis.now kept.now result }
{
    check_numbers(alloc, workflow, basis, jobs)?;
    let parts = runs_of(alloc, basis, jobs, kept.len())?;
    let clusters = clusters_of(alloc, parts)?;
    Ok(clusters)
}
