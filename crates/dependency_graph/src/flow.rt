//! How values flow along a graph's order.

ghost use Rattle.std.specs.Prelude.{◌≡◌, ◌<◌, ℕ, true, length, take, slice_index_or};
ghost use Rattle.values.specs.declared.numbers.JobId.{JobId};
ghost use Rattle.workflow_core.specs.declared.workflow.Workflow.{Workflow};
ghost use Rattle.workflow_core.specs.code.WellFormed.{IsWellFormed};
ghost use Rattle.digraph.specs.Adjacency.{has_node};
ghost use Rattle.dependency_graph.specs.Edges.{is_among, makers, read_by};
ghost use Rattle.dependency_graph.specs.Graph.{Links, IsGraphOf, numbers};
ghost use Rattle.dependency_graph.specs.code.Flow.{FlowsAlong};

/// In a graph's order, who makes an input of a job comes before it.
pub fn makers_come_before()
    ensures { (w : Workflow) (g : Links) → IsGraphOf w g → (i : ℕ) (a : JobId) → i < length g.ordered
        → slice_index_or g.ordered i a ≡ a
        → (f p : ℕ) → is_among f (read_by w a.0) ≡ true → is_among p (makers w f) ≡ true
        → has_node p (numbers (take i g.ordered)) ≡ true }
{}

/// Values flow along a graph's order.
pub fn values_flow_in_order()
    ensures { (w : Workflow) (g : Links) → IsWellFormed w → IsGraphOf w g → FlowsAlong w g.ordered }
{}
