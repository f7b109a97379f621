//! The inputs of planning.

use dependency_graph::Graph;
use replica_catalog::ReplicaCatalog;
use site_catalog::SiteCatalog;
use transformation_catalog::TransformationCatalog;
use workflow_core::Workflow;

/// What the documents of a request say, and the graph of their workflow.
pub struct Survey {
    pub workflow: Workflow,
    pub sites: SiteCatalog,
    pub replicas: ReplicaCatalog,
    pub transformations: TransformationCatalog,
    pub graph: Graph,
}

impl Drop for Survey {
    fn drop(self) {
        let Survey {
            workflow,
            sites,
            replicas,
            transformations,
            graph,
        } = self;
    }
}
