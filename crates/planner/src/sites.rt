//! The sites of the kept jobs.

ghost use Rattle.std.specs.Prelude.{◌≡◌, ℕ, List, Ok, IfErr, IfOk, length};
ghost use Rattle.workflow_core.specs.code.WellFormed.{IsWellFormed};
ghost use Rattle.dependency_graph.specs.code.Built.{id_of};
ghost use Rattle.dependency_graph.specs.Graph.{IsGraphOf};
ghost use Rattle.plan_request.specs.code.Limits.{IsWithinLimits};
ghost use Rattle.plan_request.specs.Request.{execute_checked};
ghost use Rattle.plan_request.specs.declared.request.Selector.TheVariants as selectors;
ghost use Rattle.planner.specs.code.PlanFault.{select_fault};
ghost use Rattle.planner.specs.code.Planning.{CannotPlace};
ghost use Rattle.planner.specs.code.Sites.{AreLeveled, AreSelected, Chooses};

use crate::inputs::Survey;
use crate::plan_fault::PlanFault;
use heft_selector::{Heft, select_heft};
use plan_request::{PlanRequest, Selector};
use site_selector::select;
use std::alloc::Global;
use values::{JobId, Memory, SelectFault, SiteId, Text};
use workflow_core::Workflow;

/// The id of a job, empty where there is no such job.
pub fn id_of(workflow: &Workflow, job: JobId) -> &str
    ensures { result.now ≡ id_of workflow.now job.0 }
{
    match workflow.jobs.as_slice().get(job.0 as usize) {
        Some(found) => found.id.as_str(),
        None => "",
    }
}

/// The fault of planning for a job without a site.
pub fn of_select_fault(
    alloc: Global,
    workflow: &Workflow,
    fault: SelectFault,
) -> Result<PlanFault, Memory>
    ensures { IfOk result (λ f. f ≡ select_fault workflow.now fault) }
{
    match fault {
        SelectFault::NoSite(job, name) => {
            let id = Text::copy_of(alloc, id_of(workflow, job))?;
            Ok(PlanFault::NoSite(id, name))
        }
        SelectFault::NoTransformation(job) => {
            let id = Text::copy_of(alloc, id_of(workflow, job))?;
            Ok(PlanFault::NoTransformation(id))
        }
        SelectFault::Memory => Ok(PlanFault::Memory),
    }
}

/// The sites that the jobs have in turns.
fn in_turns(
    alloc: Global,
    request: &PlanRequest,
    survey: &Survey,
    kept: &[bool],
    levels: &[u32],
) -> Result<Vec<Option<SiteId>>, SelectFault>
    requires well_formed { IsWellFormed survey.now.workflow }
    requires sites { execute_checked request.now.execute ≡ Ok tt }
    requires kept { length kept.now ≡ length survey.now.workflow.jobs }
    requires levels { length levels.now ≡ length survey.now.workflow.jobs }
    ensures { Chooses selectors.RoundRobin request.now survey.now kept.now levels.now result }
{
    select(
        alloc,
        &survey.workflow,
        kept,
        levels,
        request,
        &survey.transformations,
    )
}

/// The sites that the jobs have in a list schedule.
fn in_schedule(
    alloc: Global,
    request: &PlanRequest,
    survey: &Survey,
    kept: &[bool],
) -> Result<Vec<Option<SiteId>>, SelectFault>
    requires well_formed { IsWellFormed survey.now.workflow }
    requires graph { IsGraphOf survey.now.workflow survey.now.graph }
    requires sites { execute_checked request.now.execute ≡ Ok tt }
    requires limits { IsWithinLimits request.now }
    requires kept { length kept.now ≡ length survey.now.workflow.jobs }
    ensures { (levels : List ℕ)
        → Chooses selectors.Heft request.now survey.now kept.now levels result }
{
    match select_heft(
        alloc,
        &survey.workflow,
        &survey.graph,
        kept,
        request,
        &survey.transformations,
    ) {
        Ok(heft) => Ok(sites_in(heft)),
        Err(fault) => Err(fault),
    }
}

fn sites_in(heft: Heft) -> Vec<Option<SiteId>>
    ensures { result ≡ heft.sites }
{
    let Heft {
        sites,
        order: _,
        starts: _,
        finishes: _,
    } = heft;
    sites
}

/// The sites that the request's selector chooses.
fn chosen(
    alloc: Global,
    request: &PlanRequest,
    survey: &Survey,
    kept: &[bool],
    levels: &[u32],
) -> Result<Vec<Option<SiteId>>, SelectFault>
    requires well_formed { IsWellFormed survey.now.workflow }
    requires graph { IsGraphOf survey.now.workflow survey.now.graph }
    requires sites { execute_checked request.now.execute ≡ Ok tt }
    requires limits { IsWithinLimits request.now }
    requires kept { length kept.now ≡ length survey.now.workflow.jobs }
    requires levels { length levels.now ≡ length survey.now.workflow.jobs }
    ensures { Chooses request.now.selector request.now survey.now kept.now levels.now result }
{
    match request.selector {
        Selector::RoundRobin => in_turns(alloc, request, survey, kept, levels),
        Selector::Heft => in_schedule(alloc, request, survey, kept),
    }
}

/// The sites of the kept jobs.
pub fn sites_of(
    alloc: Global,
    request: &PlanRequest,
    survey: &Survey,
    kept: &[bool],
    levels: &[u32],
) -> Result<Vec<Option<SiteId>>, PlanFault>
    requires well_formed { IsWellFormed survey.now.workflow }
    requires graph { IsGraphOf survey.now.workflow survey.now.graph }
    requires sites { execute_checked request.now.execute ≡ Ok tt }
    requires limits { IsWithinLimits request.now }
    requires kept { length kept.now ≡ length survey.now.workflow.jobs }
    requires levels { length levels.now ≡ length survey.now.workflow.jobs }
    requires leveled { AreLeveled request.now survey.now kept.now levels.now }
    ensures sites { IfOk result (λ v. AreSelected request.now survey.now kept.now levels.now v.items) }
    ensures fault { IfErr result (CannotPlace request.now survey.now) }
{
    match chosen(alloc, request, survey, kept, levels) {
        Ok(sites) => Ok(sites),
        Err(fault) => {
            let fault = of_select_fault(alloc, &survey.workflow, fault)?;
            Err(fault)
        }
    }
}
