//! The jobs that make the inputs of a job.

ghost use Rattle.std.specs.Prelude.{◌≡◌, map, IfOk};
ghost use Rattle.workflow_core.specs.WellFormed.{inputs_of, parent_of, child_of};
ghost use Rattle.values.specs.declared.numbers.FileId.{FileId};
ghost use Rattle.values.specs.declared.numbers.JobId.{JobId};
ghost use Rattle.digraph.specs.code.Adjacency.{lists_of};
ghost use Rattle.dependency_graph.specs.code.Sources.{found};

use std::alloc::Global;
use values::{FileId, JobId, Memory};
use workflow_core::Job;

/// The jobs that make some files.
fn found(alloc: Global, producers: &[Option<JobId>], files: &[FileId]) -> Result<Vec<u32>, Memory>
    ensures { IfOk result (λ v. v.items ≡ found producers.now (map (λ (f : FileId). f.0) files.now)) }
{
    let mut jobs = Vec::new(alloc);
    for file in files {
        if let Some(Some(job)) = producers.get(file.0 as usize) {
            jobs.push(job.0)?;
        }
    }
    Ok(jobs)
}

/// For each job those that make its inputs.
pub fn sources(
    alloc: Global,
    producers: &[Option<JobId>],
    jobs: &[Job],
) -> Result<Vec<Vec<u32>>, Memory>
    ensures { IfOk result (λ lists. lists_of lists.items
        ≡ map (λ j. found producers.now (inputs_of j)) jobs.now) }
{
    let mut lists = Vec::new(alloc);
    for job in jobs {
        lists.push(found(alloc, producers, job.inputs.as_slice())?)?;
    }
    Ok(lists)
}

/// Pairs of jobs by number.
pub fn numbered(alloc: Global, pairs: &[(JobId, JobId)]) -> Result<Vec<(u32, u32)>, Memory>
    ensures { IfOk result (λ v. v.items ≡ map (λ (p : JobId × JobId). (parent_of p, child_of p)) pairs.now) }
{
    Ok(
        pairs
            .iter()
            .map(|pair| (pair.0.0, pair.1.0))
            .collect(alloc)?,
    )
}
