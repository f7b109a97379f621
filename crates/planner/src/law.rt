//! What the steps of planning hand on.

ghost use Rattle.std.specs.Prelude.{◌≡◌, ◌≤◌, ℕ, Bool, List, length, Ok, Option};
ghost use Rattle.values.specs.declared.numbers.SiteId.{SiteId};
ghost use Rattle.workflow_core.specs.declared.clusters.Clusters.{Clusters};
ghost use Rattle.workflow_core.specs.code.WellFormed.{IsWellFormed};
ghost use Rattle.dependency_graph.specs.Graph.{IsGraphOf};
ghost use Rattle.plan_request.specs.declared.request.PlanRequest.{PlanRequest};
ghost use Rattle.plan_request.specs.code.Limits.{IsWithinLimits as IsRequestWithinLimits};
ghost use Rattle.plan_request.specs.Request.{execute_checked};
ghost use Rattle.plan_core.specs.declared.plan.Plan.{Plan};
ghost use Rattle.plan_core.specs.code.Proper.{IsProper};
ghost use Rattle.storage_simulation.specs.code.Goods.{IsWithinLimits};
ghost use Rattle.transfer_refiner.specs.code.Conditions.{IsDraft};
ghost use Rattle.planner.specs.declared.inputs.Survey.{Survey};
ghost use Rattle.planner.specs.code.Planning.{ArePlaced, IsPlanOf, draft};
ghost use Rattle.planner.specs.code.Sites.{AreExecutionSites, AreSelected};

use cleanup_refiner::cleaned_plan_is_proper;
use clustering::clusters_are_parts;
use heft_selector::scheduled_sites_are_placed;
use site_selector::selected_sites_are_placed;
use storage_simulation::pairs_are_few;
use transfer_refiner::{
    cleans_are_counted, refined_plan_is_proper, refined_plan_is_small, single_jobs_are_a_draft,
};

/// Whatever the request's selector, the sites of the kept jobs are what a plan asks of them.
pub fn selected_sites_are_execution_sites()
    ensures { (r : PlanRequest) (s : Survey) (kept : List Bool) (levels : List ℕ)
        (sites : List (Option SiteId)) → length kept ≡ length s.workflow.jobs
        → AreSelected r s kept levels sites → AreExecutionSites r s kept sites }
{
    selected_sites_are_placed();
    scheduled_sites_are_placed();
}

/// Kept jobs with their sites and clusters can be refined.
pub fn placed_jobs_are_a_draft()
    ensures { (r : PlanRequest) (s : Survey) (sites : List (Option SiteId)) (clusters : Clusters)
        → IsWellFormed s.workflow → IsGraphOf s.workflow s.graph → execute_checked r.execute ≡ Ok tt
        → ArePlaced r s sites clusters → IsDraft (draft r s sites clusters) }
{
    clusters_are_parts();
    selected_sites_are_execution_sites();
    single_jobs_are_a_draft();
}

/// The plan of what the documents say is proper and within the limits of storage.
pub fn plans_can_be_ordered()
    ensures proper { (r : PlanRequest) (s : Survey) (limit : ℕ) (p : Plan)
        → IsWellFormed s.workflow → IsGraphOf s.workflow s.graph → execute_checked r.execute ≡ Ok tt
        → limit ≤ 120000 → IsPlanOf r s limit p → IsProper p }
    ensures limits { (r : PlanRequest) (s : Survey) (limit : ℕ) (p : Plan)
        → IsWellFormed s.workflow → IsGraphOf s.workflow s.graph → execute_checked r.execute ≡ Ok tt
        → IsRequestWithinLimits r
        → limit ≤ 120000 → IsPlanOf r s limit p → IsWithinLimits p }
{
    placed_jobs_are_a_draft();
    refined_plan_is_proper();
    refined_plan_is_small();
    cleans_are_counted();
    cleaned_plan_is_proper();
    pairs_are_few();
}
