//! The graph of a workflow, or why it has none.

ghost use Rattle.std.specs.Prelude.{◌≡◌, ◌<◌, ℕ, List, length, map, IfOk, All};
ghost use Rattle.workflow_core.specs.code.WellFormed.{IsWellFormed};
ghost use Rattle.digraph.specs.Cycle.{Returns};
ghost use Rattle.digraph.specs.code.Cycle.{IsNamedCycle};
ghost use Rattle.digraph.specs.code.Digraph.{count, edge};
ghost use Rattle.dependency_graph.specs.declared.fault.GraphFault.TheVariants.{TwoProducers, Cycle};
ghost use Rattle.dependency_graph.specs.Built.{workflow_file_name};
ghost use Rattle.dependency_graph.specs.code.Built.{id_of, FindsProducers, Builds};

use crate::edges::sources_of;
use crate::fault::GraphFault;
use crate::graph::{Graph, graph_of};
use crate::makers::{contested, first_makers, makers_of};
use digraph::Digraph;
use std::alloc::Global;
use values::{FileId, Items, JobId, Memory, Text};
use workflow_core::Workflow;

fn id_of(alloc: Global, workflow: &Workflow, job: u32) -> Result<Text, Memory>
    requires { job < length workflow.now.jobs }
    ensures { IfOk result (λ id. id ≡ id_of workflow.now job) }
{
    workflow.jobs.as_slice()[job as usize].id.copied(alloc)
}

fn ids_of(alloc: Global, workflow: &Workflow, jobs: &[u32]) -> Result<Items<Text>, Memory>
    requires { All (λ n. n < length workflow.now.jobs) jobs.now }
    ensures { IfOk result (λ ids. ids ≡ map (id_of workflow.now) jobs.now) }
{
    let mut ids = Vec::new(alloc);
    for job in jobs {
        ids.push(id_of(alloc, workflow, *job)?)?;
    }
    Ok(Items::new(ids))
}

fn two_producers(
    alloc: Global,
    workflow: &Workflow,
    file: FileId,
    first: JobId,
    second: JobId,
) -> Result<GraphFault, Memory>
    requires file { file.0 < length workflow.now.files }
    requires first { first.0 < length workflow.now.jobs }
    requires second { second.0 < length workflow.now.jobs }
    ensures { IfOk result (λ e. e ≡ TwoProducers (workflow_file_name workflow.now file.0) (id_of workflow.now first.0)
        (id_of workflow.now second.0)) }
{
    let name = workflow.files.as_slice()[file.0 as usize].copied(alloc)?;
    let one = id_of(alloc, workflow, first.0)?;
    let two = id_of(alloc, workflow, second.0)?;
    Ok(GraphFault::TwoProducers(name, one, two))
}

/// The producer of each file where none has two, or the fault.
fn producers_of(alloc: Global, workflow: &Workflow) -> Result<Vec<Option<JobId>>, GraphFault>
    requires { IsWellFormed workflow.now }
    ensures { FindsProducers workflow.now result }
{
    let table = makers_of(
        alloc,
        workflow.jobs.as_slice(),
        workflow.files.as_slice().len(),
    )?;
    if let Some((file, first, second)) = contested(&table) {
        return Err(two_producers(alloc, workflow, file, first, second)?);
    }
    Ok(first_makers(alloc, &table)?)
}

/// The fault that names a cycle.
fn cycle_fault(alloc: Global, workflow: &Workflow, digraph: &Digraph) -> Result<GraphFault, Memory>
    requires jobs { count digraph.now ≡ length workflow.now.jobs }
    requires returns { (a : ℕ) × Returns (edge digraph.now) a }
    ensures { IfOk result (λ e. (ns : List ℕ) × IsNamedCycle (edge digraph.now) ns
        × (e ≡ Cycle (map (id_of workflow.now) ns))) }
{
    match digraph.named_cycle(alloc)? {
        Some(nodes) => Ok(GraphFault::Cycle(ids_of(alloc, workflow, &nodes)?)),
        None => unreachable!(),
    }
}

/// The graph of a workflow, or why it has none.
pub fn build(alloc: Global, workflow: &Workflow) -> Result<Graph, GraphFault>
    requires { IsWellFormed workflow.now }
    ensures answer { Builds workflow.now result }
{
    let producers = producers_of(alloc, workflow)?;
    let sources = sources_of(alloc, workflow, &producers)?;
    let digraph = Digraph::new(alloc, &sources)?;
    match digraph.topological_order(alloc)? {
        Some(order) => Ok(graph_of(alloc, producers, &digraph, &order)?),
        None => Err(cycle_fault(alloc, workflow, &digraph)?),
    }
}
