//! The list schedule of a survey's kept jobs.

ghost use Rattle.std.specs.Prelude.{◌≡◌, Ok};
ghost use Rattle.workflow_core.specs.code.WellFormed.{IsWellFormed};
ghost use Rattle.dependency_graph.specs.Graph.{IsGraphOf};
ghost use Rattle.plan_request.specs.code.Limits.{IsWithinLimits};
ghost use Rattle.plan_request.specs.Request.{execute_checked};
ghost use Rattle.planner.specs.code.Scheduling.{AreKeptOf, Schedules};

use crate::inputs::Survey;
use crate::plan_fault::PlanFault;
use crate::sites::of_select_fault;
use crate::surveyed::Surveyed;
use data_reuse::kept;
use heft_selector::{Heft, select_heft};
use plan_request::PlanRequest;
use std::alloc::Global;

/// The schedule of jobs that are known to be kept.
fn schedule_kept(
    alloc: Global,
    request: &PlanRequest,
    survey: &Survey,
    kept: &[bool],
) -> Result<Heft, PlanFault>
    requires well_formed { IsWellFormed survey.now.workflow }
    requires graph { IsGraphOf survey.now.workflow survey.now.graph }
    requires sites { execute_checked request.now.execute ≡ Ok tt }
    requires limits { IsWithinLimits request.now }
    requires kept { AreKeptOf request.now survey.now kept.now }
    ensures { Schedules request.now survey.now result }
{
    let workflow = &survey.workflow;
    let transformations = &survey.transformations;
    match select_heft(
        alloc,
        workflow,
        &survey.graph,
        kept,
        request,
        transformations,
    ) {
        Ok(heft) => Ok(heft),
        Err(fault) => {
            let fault = of_select_fault(alloc, workflow, fault)?;
            Err(fault)
        }
    }
}

/// The list schedule of a surveyed request's kept jobs, whatever its selector, or the fault of the
/// first of them by number that has no site.
pub fn schedule_survey(alloc: Global, surveyed: &Surveyed) -> Result<Heft, PlanFault>
    ensures { Schedules surveyed.now.request surveyed.now.survey result }
{
    let survey = &surveyed.survey;
    let kept = kept(
        alloc,
        &survey.workflow,
        &survey.graph,
        &survey.replicas,
        surveyed.request.force,
    )?;
    schedule_kept(alloc, &surveyed.request, survey, &kept)
}
