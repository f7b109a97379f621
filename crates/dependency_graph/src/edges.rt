//! The edges of a workflow.

ghost use Rattle.std.specs.Prelude.{◌≡◌, ◌<◌, ℕ, [], ◌∷◌, List, length, slice_index_or, None, Some, IfOk, All};
ghost use Rattle.workflow_core.specs.declared.workflow.Workflow.{Workflow};
ghost use Rattle.workflow_core.specs.declared.workflow.Job.{Job};
ghost use Rattle.workflow_core.specs.code.WellFormed.{IsWellFormed};
ghost use Rattle.digraph.specs.code.Adjacency.{lists_of};
ghost use Rattle.digraph.specs.Adjacency.{neighbours, has_node};
ghost use Rattle.dependency_graph.specs.Edges.{makers, producer, edge};
ghost use Rattle.dependency_graph.specs.code.Built.{AreProducers};

use crate::sources::{numbered, sources};
use digraph::add_pairs;
use std::alloc::Global;
use values::{JobId, Memory};
use workflow_core::Workflow;

/// The jobs from which an edge leads to each job, in any order.
pub fn sources_of(
    alloc: Global,
    workflow: &Workflow,
    producers: &[Option<JobId>],
) -> Result<Vec<Vec<u32>>, Memory>
    requires well_formed { IsWellFormed workflow.now }
    requires producers { AreProducers workflow.now producers.now }
    ensures long { IfOk result (λ lists. length lists.items ≡ length workflow.now.jobs) }
    ensures in_range { IfOk result (λ lists. (k : ℕ)
        → All (λ n. n < length workflow.now.jobs) (neighbours (lists_of lists.items) k)) }
    ensures edges { IfOk result (λ lists. (a b : ℕ)
        → has_node a (neighbours (lists_of lists.items) b) ≡ edge workflow.now a b) }
{
    let mut lists = sources(alloc, producers, workflow.jobs.as_slice())?;
    let pairs = numbered(alloc, workflow.pairs.as_slice())?;
    add_pairs(&mut lists, &pairs)?;
    Ok(lists)
}

/// A file without a producing job has no producer; else the first job that makes it is its producer.
pub fn producer_is_the_first_maker()
    ensures none { (w : Workflow) (f : ℕ) → makers w f ≡ [] → producer w.jobs f ≡ None }
    ensures some { (w : Workflow) (f a : ℕ) (later : List ℕ) → makers w f ≡ a ∷ later
        → (j : Job) × (producer w.jobs f ≡ Some j) × (slice_index_or w.jobs a j ≡ j) }
{}
