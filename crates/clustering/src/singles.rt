//! Jobs, each a cluster of its own.

ghost use Rattle.std.specs.Prelude.{◌≡◌, IfOk};
ghost use Rattle.clustering.specs.Singles.{singles};
ghost use Rattle.dependency_graph.specs.Graph.{numbers as job_numbers};

use std::alloc::Global;
use values::{Items, JobId, Memory};
use workflow_core::Clusters;

/// Jobs by number.
pub fn ids(alloc: Global, numbers: &[u32]) -> Result<Vec<JobId>, Memory>
    ensures { IfOk result (λ v. job_numbers v.items ≡ numbers.now) }
{
    let mut jobs = Vec::new(alloc);
    for number in numbers {
        jobs.push(JobId(*number))?;
    }
    Ok(jobs)
}

/// Each job as a cluster of its own.
pub fn single_jobs(alloc: Global, jobs: &[JobId]) -> Result<Clusters, Memory>
    ensures { IfOk result (λ c. c.parts ≡ singles jobs.now) }
{
    let mut parts = Vec::new(alloc);
    for job in jobs {
        let mut part = Vec::new(alloc);
        part.push(*job)?;
        parts.push(Items::new(part))?;
    }
    Ok(Clusters {
        parts: Items::new(parts),
    })
}
