//! The clusters of the kept jobs.

ghost use Rattle.std.specs.Prelude.{◌≡◌, ◌≤◌, length};
ghost use Rattle.dependency_graph.specs.Graph.{IsGraphOf};
ghost use Rattle.clustering.specs.Basis.{clustering_input};
ghost use Rattle.clustering.specs.code.Clusters.{ClustersAre};

use crate::basis::Basis;
use crate::by_label::clusters_by_label;
use crate::fault::ClusterFault;
use crate::horizontal::clusters_in_runs;
use crate::singles::{ids, single_jobs};
use dependency_graph::{Graph, ranked};
use plan_request::ClusterMode;
use std::alloc::Global;
use transformation_catalog::TransformationCatalog;
use values::SiteId;
use workflow_core::{Clusters, Workflow};

/// The clusters of the kept jobs. There is one value of `kept`, `levels` and `sites` for each job.
pub fn cluster(
    alloc: Global,
    workflow: &Workflow,
    graph: &Graph,
    kept: &[bool],
    levels: &[u32],
    sites: &[Option<SiteId>],
    mode: ClusterMode,
    transformations: &TransformationCatalog,
) -> Result<Clusters, ClusterFault>
    requires few { length kept.now ≤ 10000 }
    requires long { length kept.now ≡ length workflow.now.jobs }
    requires graph { IsGraphOf workflow.now graph.now }
    ensures { ClustersAre mode workflow.now
        (clustering_input workflow.now levels.now sites.now transformations.now) kept.now result }
{
    let order = ranked(alloc, kept, levels)?;
    let jobs = ids(alloc, &order)?;
    if let ClusterMode::Horizontal = mode {
        let basis = Basis::new(alloc, workflow, levels, sites, transformations)?;
        return clusters_in_runs(alloc, workflow, &basis, kept, &jobs);
    }
    if let ClusterMode::Label = mode {
        let basis = Basis::new(alloc, workflow, levels, sites, transformations)?;
        return clusters_by_label(alloc, workflow, graph, &basis, kept, &jobs);
    }
    Ok(single_jobs(alloc, &jobs)?)
}
