//! Kept jobs, each a cluster of its own.

ghost use Rattle.std.specs.Prelude.{◌≡◌, List, Option};
ghost use Rattle.values.specs.declared.numbers.JobId.{JobId};
ghost use Rattle.values.specs.declared.numbers.SiteId.{SiteId};
ghost use Rattle.workflow_core.specs.declared.workflow.Workflow.{Workflow};
ghost use Rattle.plan_request.specs.declared.request.PlanRequest.{PlanRequest};
ghost use Rattle.replica_catalog.specs.declared.catalog.ReplicaCatalog.{ReplicaCatalog};
ghost use Rattle.workflow_core.specs.declared.clusters.Clusters.{Clusters};
ghost use Rattle.transfer_refiner.specs.code.Conditions.{IsDraft};
ghost use Rattle.transfer_refiner.specs.Draft.{planned};
ghost use Rattle.transfer_refiner.specs.code.Singles.{ArePlaced, singles};

/// Kept jobs that are placed can be refined, each as a cluster of its own.
pub fn single_jobs_are_a_draft()
    ensures { (w : Workflow) (js : List JobId) (c : Clusters) (sites : List (Option SiteId))
        (rs : ReplicaCatalog) (r : PlanRequest) → ArePlaced w r sites js → c.parts ≡ singles js
        → IsDraft (planned w c sites rs r) }
{}
