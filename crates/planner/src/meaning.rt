//! What a plan means: its tasks carry what the workflow's files are worth.

ghost use Rattle.std.specs.Prelude.{◌≡◌, ◌≤◌, ℕ, Ok};
ghost use Rattle.workflow_core.specs.code.WellFormed.{IsWellFormed};
ghost use Rattle.dependency_graph.specs.Graph.{IsGraphOf};
ghost use Rattle.plan_request.specs.declared.request.PlanRequest.{PlanRequest};
ghost use Rattle.plan_request.specs.Request.{execute_checked};
ghost use Rattle.plan_core.specs.declared.plan.Plan.{Plan};
ghost use Rattle.planner.specs.declared.inputs.Survey.{Survey};
ghost use Rattle.planner.specs.code.Meaning.{MeansWorkflow};
ghost use Rattle.planner.specs.code.Planning.{IsPlanOf};

use crate::law::placed_jobs_are_a_draft;
use cleanup_refiner::cleaned_plan_means_the_same;
use clustering::kept_jobs_are_clustered;
use dependency_graph::values_flow_in_order;
use storage_simulation::pairs_are_few;
use transfer_refiner::{
    cleans_are_counted, refined_plan_is_proper, refined_plan_is_small,
    refined_plan_means_the_workflow,
};

/// A plan of a sound workflow means that workflow.
pub fn plans_mean_the_workflow()
    ensures { (r : PlanRequest) (s : Survey) (limit : ℕ) (p : Plan)
        → execute_checked r.execute ≡ Ok tt → limit ≤ 120000
        → IsWellFormed s.workflow → IsGraphOf s.workflow s.graph
        → IsPlanOf r s limit p → MeansWorkflow r s p }
{
    placed_jobs_are_a_draft();
    kept_jobs_are_clustered();
    values_flow_in_order();
    refined_plan_is_proper();
    refined_plan_is_small();
    refined_plan_means_the_workflow();
    cleans_are_counted();
    cleaned_plan_means_the_same();
    pairs_are_few();
}
