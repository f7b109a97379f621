//! The values of a workflow's files.

ghost use Rattle.std.specs.Prelude.{◌≡◌, ◌+◌, ◌≤◌, Some, Err, length, IfOk, IfErr};
ghost use Rattle.outside.specs.code.Counts.{Rose};
ghost use Rattle.values.specs.declared.numbers.JobId.{JobId};
ghost use Rattle.workflow_core.specs.code.WellFormed.{IsWellFormed};
ghost use Rattle.dependency_graph.specs.Graph.{IsGraphOf};
ghost use Rattle.dependency_graph.specs.Value.{run_of, basis};
ghost use Rattle.dependency_graph.specs.code.Value.{AllBased};
ghost use Rattle.workflow_eval.specs.FileTable.{IsFaultOf};
ghost use Rattle.workflow_eval.specs.declared.fault.EvalFault.TheVariants.{ToolFailed};
ghost use Rattle.workflow_eval.specs.Evaluating.{Evaluates, IsReached};

use crate::fault::EvalFault;
use crate::file_table::{copies_of, into_blobs, place, table_of};
use dependency_graph::{Graph, values_flow_in_order};
use outside::{Blob, JobId, Text, Tool, ToolFault};
use std::alloc::Global;
use workflow_core::{Job, Workflow};

/// Runs a job by its tool's name.
fn run_job<T: Tool>(
    alloc: Global,
    number: JobId,
    name: &Text,
    job: &Job,
    inputs: &[Blob],
    tool: &mut T,
) -> Result<Vec<Blob>, EvalFault>
    ensures ok { IfOk result (λ v. run_of T.apply name.now job.now (Some inputs.now) ≡ Some v.items) }
    ensures as_many { IfOk result (λ v. length job.now.outputs ≡ length v.items) }
    ensures fault { IfErr result (λ e. IsFaultOf (run_of T.apply name.now job.now (Some inputs.now)) number.0
        (Rose (T.faults tool.old) (T.faults tool.new)) e) }
    ensures faults { T.faults tool.old ≤ T.faults tool.new }
    ensures runs { T.runs tool.new ≤ T.runs tool.old + 1 }
{
    let made = tool.run(
        alloc,
        name.as_str(),
        job.arguments.as_slice(),
        inputs,
        job.outputs.as_slice().len(),
    );
    match made {
        Ok(outputs) => Ok(outputs),
        Err(ToolFault::Declined) => Err(EvalFault::Declined(number)),
        Err(ToolFault::Failed) => Err(EvalFault::ToolFailed(number)),
        Err(ToolFault::Memory) => Err(EvalFault::Memory),
    }
}

/// The value of each file, by number, over a table with a place for each file: `tools` has the tool's name of each job,
/// `table` the bytes of each file that no job makes. All values are held at once, and a job's inputs besides.
pub fn evaluate_in<T: Tool>(
    alloc: Global,
    workflow: &Workflow,
    graph: &Graph,
    tools: &[Text],
    table: Vec<Option<Blob>>,
    tool: &mut T,
) -> Result<Vec<Blob>, EvalFault>
    requires well_formed { IsWellFormed workflow.now }
    requires graph { IsGraphOf workflow.now graph.now }
    requires tools { length tools.now ≡ length workflow.now.jobs }
    requires bases { length table.items ≡ length workflow.now.files }
    requires based { AllBased (basis T.apply tools.now table.items) workflow.now }
    ensures answer { Evaluates (basis T.apply tools.now table.items) workflow.now graph.now.ordered
        (Rose (T.faults tool.old) (T.faults tool.new)) result }
    ensures reached { (j : JobId) → result ≡ Err (ToolFailed j)
        → IsReached (basis T.apply tools.now table.items) workflow.now graph.now.ordered j }
    ensures faults { T.faults tool.old ≤ T.faults tool.new }
    ensures runs { T.runs tool.new ≤ T.runs tool.old + length graph.now.ordered }
{
    // A law for the proof: it does nothing.
    values_flow_in_order();
    let jobs = workflow.jobs.as_slice();
    let mut table = table;
    for number in graph.ordered() {
        let job = &jobs[number.0 as usize];
        let inputs = copies_of(alloc, &table, job)?;
        let name = &tools[number.0 as usize];
        let outputs = run_job(alloc, *number, name, job, &inputs, tool)?;
        place(&mut table, job, outputs);
    }
    Ok(into_blobs(alloc, table)?)
}

/// As [`evaluate_in`], over a copy of each base.
pub fn evaluate<T: Tool>(
    alloc: Global,
    workflow: &Workflow,
    graph: &Graph,
    tools: &[Text],
    base: &[Option<Blob>],
    tool: &mut T,
) -> Result<Vec<Blob>, EvalFault>
    requires well_formed { IsWellFormed workflow.now }
    requires graph { IsGraphOf workflow.now graph.now }
    requires tools { length tools.now ≡ length workflow.now.jobs }
    requires bases { length base.now ≡ length workflow.now.files }
    requires based { AllBased (basis T.apply tools.now base.now) workflow.now }
    ensures answer { Evaluates (basis T.apply tools.now base.now) workflow.now graph.now.ordered
        (Rose (T.faults tool.old) (T.faults tool.new)) result }
    ensures reached { (j : JobId) → result ≡ Err (ToolFailed j)
        → IsReached (basis T.apply tools.now base.now) workflow.now graph.now.ordered j }
    ensures faults { T.faults tool.old ≤ T.faults tool.new }
    ensures runs { T.runs tool.new ≤ T.runs tool.old + length graph.now.ordered }
{
    let Ok(table) = table_of(alloc, base) else {
        return Err(EvalFault::Memory);
    };
    evaluate_in(alloc, workflow, graph, tools, table, tool)
}
