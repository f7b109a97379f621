//! What clusters of kept jobs come to.

ghost use Rattle.std.specs.Prelude.{◌≡◌, ℕ, Bool, true, List, Ok, Option};
ghost use Rattle.std.specs.List.{list_any};
ghost use Rattle.values.specs.declared.numbers.JobId.{JobId};
ghost use Rattle.values.specs.declared.numbers.SiteId.{SiteId};
ghost use Rattle.workflow_core.specs.declared.clusters.Clusters.{Clusters};
ghost use Rattle.workflow_core.specs.declared.workflow.Workflow.{Workflow};
ghost use Rattle.transformation_catalog.specs.declared.catalog.TransformationCatalog.{TransformationCatalog};
ghost use Rattle.plan_request.specs.declared.request.ClusterMode.{ClusterMode};
ghost use Rattle.dependency_graph.specs.Edges.{is_among};
ghost use Rattle.dependency_graph.specs.Graph.{IsGraphOf, Links};
ghost use Rattle.dependency_graph.specs.Levels.{AreLevels, is_kept};
ghost use Rattle.clustering.specs.Basis.{ClusteringInput, clustering_input};
ghost use Rattle.clustering.specs.code.Clusters.{ClustersAre};
ghost use Rattle.clustering.specs.code.Condition.{AreParts};
ghost use Rattle.dependency_graph.specs.Graph.{numbers as job_numbers};

/// Each kept job is in a cluster.
pub fn kept_jobs_are_clustered()
    ensures { (mode : ClusterMode) (w : Workflow) (b : ClusteringInput) (kept : List Bool) (c : Clusters)
        → ClustersAre mode w b kept (Ok c) → (a : ℕ) → is_kept kept a ≡ true
        → list_any (λ (js : List JobId). is_among a (job_numbers js)) c.parts ≡ true }
{}

/// Clusters of kept jobs can be made tasks: each job is in one at most, after those of it whose files it reads, and no
/// clusters lead round.
pub fn clusters_are_parts()
    ensures { (mode : ClusterMode) (w : Workflow) (g : Links) (kept : List Bool) (levels : List ℕ)
        (sites : List (Option SiteId)) (t : TransformationCatalog) (c : Clusters)
        → IsGraphOf w g → AreLevels g kept levels → ClustersAre mode w (clustering_input w levels sites t) kept (Ok c)
        → AreParts w kept c.parts }
{}
