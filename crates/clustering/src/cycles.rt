//! The graph of some clusters, and a cycle of it.

ghost use Rattle.std.specs.Prelude.{◌≡◌, ◌<◌, ◌≤◌, ◌++◌, ℕ, [], length, map, slice_index_or, IfOk, OnOk, All};
ghost use Rattle.digraph.specs.code.Adjacency.{lists_of};
ghost use Rattle.dependency_graph.specs.code.Graph.{job_lists};
ghost use Rattle.clustering.specs.code.Cycles.{first_id, id_in, other_parts, part_sources, sources_from};

use crate::horizontal::id_of;
use crate::labels::{first_of, holder_in};
use dependency_graph::Graph;
use std::alloc::Global;
use values::{Items, JobId, Memory, Text};
use workflow_core::Workflow;

/// Adds the parts that hold some jobs, this one excepted.
fn push_other_parts(
    sources: &mut Vec<u32>,
    holders: &[Option<u32>],
    part: u32,
    jobs: &[JobId],
) -> Result<(), Memory>
    ensures { OnOk result (sources.new.items ≡ sources.old.items ++ other_parts holders.now part jobs.now) }
{
    for job in jobs {
        if let Some(holder) = holder_in(holders, *job) {
            if holder != part {
                sources.push(holder)?;
            }
        }
    }
    Ok(())
}

/// The parts from which an edge leads to a part.
fn part_sources(
    alloc: Global,
    graph: &Graph,
    holders: &[Option<u32>],
    part: u32,
    jobs: &[JobId],
) -> Result<Vec<u32>, Memory>
    requires { All (λ j. j.0 < length graph.now.parents) jobs.now }
    ensures { IfOk result (λ v. v.items ≡ part_sources holders.now graph.now.parents part jobs.now) }
{
    let mut sources = Vec::new(alloc);
    for job in jobs {
        push_other_parts(&mut sources, holders, part, graph.parents(*job))?;
    }
    Ok(sources)
}

/// For each part those from which an edge leads to it.
pub fn sources(
    alloc: Global,
    graph: &Graph,
    holders: &[Option<u32>],
    parts: &[Vec<JobId>],
) -> Result<Vec<Vec<u32>>, Memory>
    requires few { length parts.now ≤ 10000 }
    requires each { (k : ℕ) → All (λ j. j.0 < length graph.now.parents)
        (slice_index_or (job_lists parts.now) k []) }
    ensures { IfOk result (λ lists. lists_of lists.items
        ≡ sources_from holders.now graph.now.parents 0 (job_lists parts.now)) }
{
    let mut lists = Vec::new(alloc);
    let mut number = 0;
    for part in parts {
        lists.push(part_sources(alloc, graph, holders, number, part)?)?;
        number += 1;
    }
    Ok(lists)
}

fn id_in(alloc: Global, workflow: &Workflow, job: Option<JobId>) -> Result<Text, Memory>
    ensures { IfOk result (λ id. id ≡ id_in workflow.now job) }
{
    match job {
        Some(job) => id_of(alloc, workflow, job),
        None => Text::copy_of(alloc, ""),
    }
}

/// The ids of the first jobs of some parts.
pub fn first_ids(
    alloc: Global,
    workflow: &Workflow,
    parts: &[Vec<JobId>],
    numbers: &[u32],
) -> Result<Items<Text>, Memory>
    ensures { IfOk result (λ ids. ids ≡ map (first_id workflow.now (job_lists parts.now)) numbers.now) }
{
    let mut ids = Vec::new(alloc);
    for number in numbers {
        ids.push(id_in(alloc, workflow, first_of(parts, Some(*number)))?)?;
    }
    Ok(Items::new(ids))
}
