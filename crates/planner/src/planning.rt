//! From what the documents of a request say to its plan.

ghost use Rattle.std.specs.Prelude.{◌≡◌, ◌<◌, ◌≤◌, ◌^◌, Ok, IfErr, IfOk, length};
ghost use Rattle.workflow_core.specs.code.WellFormed.{IsWellFormed};
ghost use Rattle.dependency_graph.specs.Graph.{IsGraphOf};
ghost use Rattle.plan_request.specs.code.Limits.{IsWithinLimits};
ghost use Rattle.plan_request.specs.Request.{execute_checked};
ghost use Rattle.plan_core.specs.code.Proper.{IsProper};
ghost use Rattle.transfer_refiner.specs.code.Conditions.{IsDraft};
ghost use Rattle.cleanup_refiner.specs.Cleans.{with_cleanup};
ghost use Rattle.planner.specs.declared.plan_fault.PlanFault.TheVariants as faults;
ghost use Rattle.planner.specs.code.Meaning.{MeansWorkflow};
ghost use Rattle.planner.specs.code.Planning.{AreClustered, ArePlaced, CannotPlace, CannotPlan, CannotRefine, IsFineFor, IsPlanOf, OfSurvey, Plans, PlansDocuments, draft};
ghost use Rattle.planner.specs.code.Sites.{AreLeveled, AreSelected};

use crate::course::survey;
use crate::inputs::Survey;
use crate::law::{placed_jobs_are_a_draft, plans_can_be_ordered};
use crate::meaning::plans_mean_the_workflow;
use crate::ordering::with_order;
use crate::plan_fault::PlanFault;
use crate::sites::sites_of;
use crate::surveyed::Surveyed;
use cleanup_refiner::add_cleans;
use clustering::cluster;
use data_reuse::kept;
use plan_core::Plan;
use plan_request::{Cleanup, PlanRequest};
use std::alloc::Global;
use storage_simulation::Ordered;
use transfer_refiner::refine;
use values::{Documents, SiteId};
use workflow_core::Clusters;

/// The sites of a survey's kept jobs, and their clusters.
#[derive(Drop)]
struct Placed {
    sites: Vec<Option<SiteId>>,
    clusters: Clusters,
}

/// The clusters of the kept jobs at their sites.
fn clusters_of(
    alloc: Global,
    request: &PlanRequest,
    survey: &Survey,
    kept: &[bool],
    levels: &[u32],
    sites: &[Option<SiteId>],
) -> Result<Clusters, PlanFault>
    requires few { length kept.now ≤ 10000 }
    requires graph { IsGraphOf survey.now.workflow survey.now.graph }
    requires leveled { AreLeveled request.now survey.now kept.now levels.now }
    requires selected { AreSelected request.now survey.now kept.now levels.now sites.now }
    ensures clusters { IfOk result (λ c. AreClustered request.now survey.now kept.now levels.now sites.now
        (Ok c)) }
    ensures fault { IfErr result (CannotPlace request.now survey.now) }
{
    match cluster(
        alloc,
        &survey.workflow,
        &survey.graph,
        kept,
        levels,
        sites,
        request.cluster,
        &survey.transformations,
    ) {
        Ok(clusters) => Ok(clusters),
        Err(fault) => Err(PlanFault::from(fault)),
    }
}

/// The sites and the clusters of the kept jobs.
fn place_jobs(alloc: Global, request: &PlanRequest, survey: &Survey) -> Result<Placed, PlanFault>
    requires well_formed { IsWellFormed survey.now.workflow }
    requires graph { IsGraphOf survey.now.workflow survey.now.graph }
    requires sites { execute_checked request.now.execute ≡ Ok tt }
    requires limits { IsWithinLimits request.now }
    ensures placed { IfOk result (λ p. ArePlaced request.now survey.now p.sites.items p.clusters) }
    ensures fault { IfErr result (CannotPlace request.now survey.now) }
{
    let workflow = &survey.workflow;
    let kept = kept(
        alloc,
        workflow,
        &survey.graph,
        &survey.replicas,
        request.force,
    )?;
    let levels = survey.graph.levels(alloc, &kept)?;
    let sites = match sites_of(alloc, request, survey, &kept, &levels) {
        Ok(sites) => sites,
        Err(fault) => return Err(fault),
    };
    match clusters_of(alloc, request, survey, &kept, &levels, &sites) {
        Ok(clusters) => Ok(Placed { sites, clusters }),
        Err(fault) => Err(fault),
    }
}

/// The plan without its Cleans.
fn refined(
    alloc: Global,
    request: &PlanRequest,
    survey: &Survey,
    placed: &Placed,
    limit: u64,
) -> Result<Plan, PlanFault>
    requires draft { IsDraft (draft request.now survey.now placed.now.sites.items placed.now.clusters) }
    requires graph { IsGraphOf survey.now.workflow survey.now.graph }
    requires few { limit < 2 ^ 32 }
    ensures plan { IfOk result
        (IsFineFor (draft request.now survey.now placed.now.sites.items placed.now.clusters) limit) }
    ensures proper { IfOk result (λ p. IsProper p) }
    ensures fault { IfErr result (CannotRefine
        (draft request.now survey.now placed.now.sites.items placed.now.clusters) limit) }
{
    match refine(
        alloc,
        &survey.workflow,
        &survey.graph,
        &placed.clusters,
        &placed.sites,
        &survey.replicas,
        request,
        limit,
    ) {
        Ok(plan) => Ok(plan),
        Err(fault) => Err(PlanFault::from(fault)),
    }
}

fn with_cleans(alloc: Global, plan: Plan, strategy: Cleanup) -> Result<Plan, PlanFault>
    requires { IsProper plan }
    ensures plan { IfOk result (λ p. p ≡ with_cleanup strategy plan) }
    ensures fault { IfErr result (λ f. f ≡ faults.Memory) }
{
    match add_cleans(alloc, plan, strategy) {
        Ok(plan) => Ok(plan),
        Err(_) => Err(PlanFault::Memory),
    }
}

/// The plan of what the documents of a request say, without an order.
fn plan_of(
    alloc: Global,
    request: &PlanRequest,
    survey: &Survey,
    limit: u64,
) -> Result<Plan, PlanFault>
    requires well_formed { IsWellFormed survey.now.workflow }
    requires graph { IsGraphOf survey.now.workflow survey.now.graph }
    requires sites { execute_checked request.now.execute ≡ Ok tt }
    requires limits { IsWithinLimits request.now }
    requires few { limit ≤ 120000 }
    ensures plan { IfOk result (IsPlanOf request.now survey.now limit) }
    ensures fault { IfErr result (CannotPlan request.now survey.now limit) }
{
    // A law for the proof: it does nothing.
    placed_jobs_are_a_draft();
    let placed = match place_jobs(alloc, request, survey) {
        Ok(placed) => placed,
        Err(fault) => return Err(fault),
    };
    let bare = match refined(alloc, request, survey, &placed, limit) {
        Ok(bare) => bare,
        Err(fault) => return Err(fault),
    };
    match with_cleans(alloc, bare, request.cleanup) {
        Ok(plan) => Ok(plan),
        Err(fault) => Err(fault),
    }
}

/// The plan of what the documents of a request say, with its order.
fn ordered_plan(
    alloc: Global,
    request: &PlanRequest,
    survey: &Survey,
    limit: u64,
) -> Result<Ordered, PlanFault>
    requires well_formed { IsWellFormed survey.now.workflow }
    requires graph { IsGraphOf survey.now.workflow survey.now.graph }
    requires sites { execute_checked request.now.execute ≡ Ok tt }
    requires sizes { IsWithinLimits request.now }
    requires few { limit ≤ 120000 }
    ensures plan { Plans request.now survey.now limit result }
{
    // A law for the proof: it does nothing.
    plans_can_be_ordered();
    let plan = match plan_of(alloc, request, survey, limit) {
        Ok(plan) => plan,
        Err(fault) => return Err(fault),
    };
    match with_order(alloc, plan) {
        Ok(ordered) => Ok(ordered),
        Err(fault) => Err(fault),
    }
}

/// The plan of a surveyed request, with its order, or the first fault. `limit` is that on tasks.
pub fn plan_survey(alloc: Global, surveyed: &Surveyed, limit: u64) -> Result<Ordered, PlanFault>
    requires { limit ≤ 120000 }
    ensures { Plans surveyed.now.request surveyed.now.survey limit result }
{
    ordered_plan(alloc, &surveyed.request, &surveyed.survey, limit)
}

/// The plan of a request and its documents, with its order, or the first fault. `limit` is that on tasks.
pub fn plan(
    alloc: Global,
    request: &PlanRequest,
    documents: &Documents,
    limit: u64,
) -> Result<Ordered, PlanFault>
    requires sites { execute_checked request.now.execute ≡ Ok tt }
    requires sizes { IsWithinLimits request.now }
    requires few { limit ≤ 120000 }
    ensures plan { PlansDocuments request.now documents.now limit result }
    ensures means { IfOk result (λ o. OfSurvey request.now documents.now
        (λ s. MeansWorkflow request.now s o.plan)) }
{
    // A law for the proof: it does nothing.
    plans_mean_the_workflow();
    let survey = match survey(alloc, request, documents) {
        Ok(survey) => survey,
        Err(fault) => return Err(fault),
    };
    match ordered_plan(alloc, request, &survey, limit) {
        Ok(ordered) => Ok(ordered),
        Err(fault) => Err(fault),
    }
}
