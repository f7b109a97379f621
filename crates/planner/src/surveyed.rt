//! A request, and what its documents say.

ghost use Rattle.std.specs.Prelude.{◌≡◌, IfErr, IfOk, Ok};
ghost use Rattle.workflow_core.specs.code.WellFormed.{IsWellFormed};
ghost use Rattle.dependency_graph.specs.Graph.{IsGraphOf};
ghost use Rattle.plan_request.specs.code.Limits.{IsWithinLimits};
ghost use Rattle.plan_request.specs.Request.{execute_checked};
ghost use Rattle.planner.specs.code.Course.{IsSurvey, Refuses};
ghost use Rattle.planner.specs.code.Surveyed.{IsGraphOf-prop, IsWellFormed-prop, IsWithinLimits-prop, PlansMeanWorkflow, PlansMeanWorkflow-prop};

use crate::course::survey;
use crate::inputs::Survey;
use crate::meaning::plans_mean_the_workflow;
use crate::plan_fault::PlanFault;
use plan_request::PlanRequest;
use std::alloc::Global;
use values::Documents;

/// A request and what its documents say, with all that planning asks of them.
#[derive(Drop)]
pub struct Surveyed {
    pub request: PlanRequest,
    pub survey: Survey,
    ghost well_formed: { IsWellFormed survey.workflow } by { IsWellFormed-prop survey.workflow },
    ghost graph: { IsGraphOf survey.workflow survey.graph } by { IsGraphOf-prop survey.workflow
        survey.graph },
    ghost sites: { execute_checked request.execute ≡ Ok tt },
    ghost limits: { IsWithinLimits request } by { IsWithinLimits-prop request },
    ghost means: { PlansMeanWorkflow request survey } by { PlansMeanWorkflow-prop request survey },
}

/// Surveys the documents of a request.
pub fn survey_request(
    alloc: Global,
    request: PlanRequest,
    documents: &Documents,
) -> Result<Surveyed, PlanFault>
    requires sites { execute_checked request.execute ≡ Ok tt }
    requires limits { IsWithinLimits request }
    ensures request { IfOk result (λ s. s.request ≡ request) }
    ensures survey { IfOk result (λ s. IsSurvey request documents.now s.survey) }
    ensures fault { IfErr result (Refuses request documents.now) }
{
    // A law for the proof: it does nothing.
    plans_mean_the_workflow();
    match survey(alloc, &request, documents) {
        Ok(survey) => Ok(Surveyed { request, survey }),
        Err(fault) => Err(fault),
    }
}
