//! The joint of some members: one request and one survey, in which each part bears its member's name.

ghost use Rattle.std.specs.Prelude.{◌≡◌, ◌≤◌, IfOk, Ok};
ghost use Rattle.workflow_core.specs.code.WellFormed.{IsWellFormed};
ghost use Rattle.replica_catalog.specs.Catalog.{replica_view};
ghost use Rattle.plan_request.specs.code.Limits.{IsWithinLimits};
ghost use Rattle.plan_request.specs.Request.{execute_checked};
ghost use Rattle.dependency_graph.specs.Graph.{IsGraphOf};
ghost use Rattle.ensemble.specs.Joining.{IsJointSurvey, Joins};
ghost use Rattle.ensemble.specs.Workflows.{IsJointWorkflow};
ghost use Rattle.ensemble.specs.Member.{AreMembers, IsJoined, count_files, count_jobs};

use crate::catalogues::{first_sites, joint_replicas, joint_transformations};
use crate::counting::check_counts;
use crate::join_fault::JoinFault;
use crate::member::Member;
use crate::requests::joint_request;
use crate::workflows::joint_workflow;
use dependency_graph::{Graph, GraphFault, build};
use plan_request::PlanRequest;
use planner::{Survey, Surveyed, plans_mean_the_workflow};
use std::alloc::Global;
use values::Memory;
use workflow_core::Workflow;

/// The members' jobs in one workflow, and its graph, which it has as each member's has.
#[tactic(auto, using(crate::proofs::SoundLemmas::never_refused))]
fn joint_graph(alloc: Global, members: &[Member]) -> Result<(Workflow, Graph), Memory>
    requires members { AreMembers members.now }
    requires few_jobs { count_jobs members.now ≤ 10000 }
    requires few_files { count_files members.now ≤ 50000 }
    ensures joint { IfOk result (λ x. IsJointWorkflow members.now x.0) }
    ensures well_formed { IfOk result (λ x. IsWellFormed x.0) }
    ensures graph { IfOk result (λ x. IsGraphOf x.0 x.1) }
{
    let workflow = joint_workflow(alloc, members)?;
    match build(alloc, &workflow) {
        Ok(graph) => Ok((workflow, graph)),
        Err(GraphFault::Memory) => {
            drop(workflow);
            Err(Memory)
        }
        Err(_) => unreachable!(),
    }
}

/// What the members' documents say together.
fn joint_survey(alloc: Global, members: &[Member]) -> Result<Survey, Memory>
    requires members { AreMembers members.now }
    requires few_jobs { count_jobs members.now ≤ 10000 }
    requires few_files { count_files members.now ≤ 50000 }
    ensures joint { IfOk result (λ s. IsJointSurvey members.now s) }
    ensures well_formed { IfOk result (λ s. IsWellFormed s.workflow) }
    ensures joined { IfOk result (λ s. IsJoined (replica_view s.replicas)) }
{
    let sites = first_sites(alloc, members)?;
    let Ok(replicas) = joint_replicas(alloc, members) else {
        drop(sites);
        return Err(Memory);
    };
    let Ok(transformations) = joint_transformations(alloc, members) else {
        drop(replicas);
        drop(sites);
        return Err(Memory);
    };
    match joint_graph(alloc, members) {
        Ok((workflow, graph)) => Ok(Survey {
            workflow,
            sites,
            replicas,
            transformations,
            graph,
        }),
        Err(Memory) => {
            drop(transformations);
            drop(replicas);
            drop(sites);
            Err(Memory)
        }
    }
}

/// The joint of some members, each surveyed with the ensemble's keys in its request.
pub fn join(alloc: Global, members: &[Member], request: &PlanRequest) -> Result<Surveyed, JoinFault>
    requires members { AreMembers members.now }
    requires sites { execute_checked request.now.execute ≡ Ok tt }
    requires limits { IsWithinLimits request.now }
    ensures { Joins members.now request.now result }
{
    // A law for the proof: it does nothing.
    plans_mean_the_workflow();
    check_counts(members)?;
    let request = joint_request(alloc, members, request)?;
    let survey = joint_survey(alloc, members)?;
    Ok(Surveyed { request, survey })
}
