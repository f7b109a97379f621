//! What the definition of a file's value comes to.

ghost use Rattle.std.specs.Prelude.{◌≡◌, ◌<◌, ℕ, List, length, Option, Some, None};
ghost use Rattle.workflow_core.specs.declared.workflow.Workflow.{Workflow};
ghost use Rattle.workflow_core.specs.declared.workflow.Job.{Job};
ghost use Rattle.workflow_core.specs.code.WellFormed.{IsWellFormed};
ghost use Rattle.dependency_graph.specs.Edges.{producer};
ghost use Rattle.dependency_graph.specs.Graph.{IsSound};
ghost use Rattle.dependency_graph.specs.Value.{Basis, base_at, made_for, value};
ghost use Rattle.dependency_graph.specs.code.Value.{IsValuation};

/// The value of a file is its base, or its part of what its producer makes of the values of the producer's inputs.
pub fn value_is_made_of_values()
    ensures base { (b : Basis) (w : Workflow) (f : ℕ) → producer w.jobs f ≡ None → value b w f ≡ base_at b f }
    ensures made { (b : Basis) (w : Workflow) (f : ℕ) (j : Job) → IsSound w → producer w.jobs f ≡ Some j
        → value b w f ≡ made_for b w.jobs (value b w) f j }
{}

/// The value is what stands at each file where each has its base or what its producer makes for it, and nothing else does it.
pub fn value_is_determined()
    ensures fits { (b : Basis) (w : Workflow) → IsSound w → IsValuation b w (value b w) }
    ensures alone { (b : Basis) (w : Workflow) (v : ℕ → Option (List ℕ)) → IsWellFormed w → IsSound w
        → IsValuation b w v → (f : ℕ) → f < length w.files → v f ≡ value b w f }
{}
