//! Kept jobs of one label, put together.

ghost use Rattle.std.specs.Prelude.{◌≡◌, ◌≤◌, length, option_map};
ghost use Rattle.values.specs.declared.numbers.JobId.{JobId};
ghost use Rattle.dependency_graph.specs.Graph.{IsGraphOf};
ghost use Rattle.dependency_graph.specs.code.Graph.{job_lists};
ghost use Rattle.dependency_graph.specs.Ranking.{IsRanked};
ghost use Rattle.clustering.specs.code.Clusters.{ChecksSites, LabelsAre};
ghost use Rattle.clustering.specs.code.Labels.{apart, holder, holder_in};
ghost use Rattle.dependency_graph.specs.Graph.{numbers as job_numbers};

use crate::basis::Basis;
use crate::cycles::{first_ids, sources};
use crate::fault::ClusterFault;
use crate::horizontal::{clusters_of, id_of};
use crate::labels::{first_of, holder_in, holder_table, labels_of};
use dependency_graph::Graph;
use digraph::Digraph;
use std::alloc::Global;
use values::{JobId, Memory, Text};
use workflow_core::{Clusters, Workflow};

/// A job's label and the first job with it, where that one is at another site.
fn apart<'a>(
    basis: &Basis<'a>,
    parts: &[Vec<JobId>],
    holders: &[Option<u32>],
    job: JobId,
) -> Option<(&'a Text, JobId)>
    requires { (j : JobId) → holder_in holders.now j ≡ holder (job_lists parts.now) j }
    ensures { option_map (λ p. (p.0.now, p.1)) result ≡ apart basis.now (job_lists parts.now) job }
{
    let label = basis.label(job)?;
    let first = first_of(parts, holder_in(holders, job))?;
    if basis.site(first) == basis.site(job) {
        None
    } else {
        Some((label, first))
    }
}

/// Refuses the first job that is at another site than the first job with its label.
#[tactic(auto, unfolding(crate::specs::code::Labels::first_apart))]
fn check_sites(
    alloc: Global,
    workflow: &Workflow,
    basis: &Basis<'_>,
    parts: &[Vec<JobId>],
    holders: &[Option<u32>],
    jobs: &[JobId],
) -> Result<(), ClusterFault>
    requires { (j : JobId) → holder_in holders.now j ≡ holder (job_lists parts.now) j }
    ensures { ChecksSites workflow.now basis.now (job_lists parts.now) jobs.now result }
{
    for job in jobs {
        if let Some((label, first)) = apart(basis, parts, holders, *job) {
            let one = id_of(alloc, workflow, first)?;
            let two = id_of(alloc, workflow, *job)?;
            return Err(ClusterFault::LabelOverSites(label.copied(alloc)?, one, two));
        }
    }
    Ok(())
}

/// The kept jobs of each label, which stand in order of (level, number), or the first label over two sites, or the
/// cycle of such clusters.
pub fn clusters_by_label(
    alloc: Global,
    workflow: &Workflow,
    graph: &Graph,
    basis: &Basis<'_>,
    kept: &[bool],
    jobs: &[JobId],
) -> Result<Clusters, ClusterFault>
    requires few { length kept.now ≤ 10000 }
    requires long { length kept.now ≡ length workflow.now.jobs }
    requires graph { IsGraphOf workflow.now graph.now }
    requires ranked { IsRanked kept.now basis.now.levels (job_numbers jobs.now) }
    ensures { LabelsAre workflow.now basis.now kept.now result }
{
    let parts = labels_of(alloc, basis, jobs)?;
    let holders = holder_table(alloc, &parts, kept.len())?;
    check_sites(alloc, workflow, basis, &parts, &holders, jobs)?;
    let sources = sources(alloc, graph, &holders, &parts)?;
    let digraph = Digraph::new(alloc, &sources)?;
    match digraph.named_cycle(alloc)? {
        Some(cycle) => {
            let ids = first_ids(alloc, workflow, &parts, &cycle)?;
            Err(ClusterFault::ClusterCycle(ids))
        }
        None => Ok(clusters_of(alloc, parts)?),
    }
}
