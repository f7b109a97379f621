//! What is planned, by reference.

use dependency_graph::Graph;
use plan_request::PlanRequest;
use replica_catalog::Replicas;
use values::{Items, JobId, SiteId};
use workflow_core::Workflow;

#[derive(Drop)]
pub struct View<'a> {
    pub workflow: &'a Workflow,
    pub graph: &'a Graph,
    pub parts: &'a [Items<JobId>],
    pub sites: &'a [Option<SiteId>],
    pub replicas: Replicas<'a>,
    pub request: &'a PlanRequest,
}
