//! The evaluation of a workflow.

ghost use Rattle.std.specs.Prelude.{◌≡◌, ◌+◌, ◌≤◌, ◌<◌, length, IfOk};
ghost use Rattle.outside.specs.code.Counts.{IsLater};
ghost use Rattle.workflow_core.specs.code.WellFormed.{IsWellFormed};
ghost use Rattle.dependency_graph.specs.Graph.{IsGraphOf};
ghost use Rattle.evaluation.specs.Evaluating.{AnswersFault, Evaluated, HasValues, IsIdOf, NamesJob, prepared};
ghost use Rattle.evaluation.specs.Fault.{UnlessMemory};
ghost use Rattle.evaluation.specs.Moments.{meeting, subject};
ghost use Rattle.evaluation.specs.ValueLines.{chosen};

use crate::bases::read_bases;
use crate::fault::EvaluationFault;
use crate::job_tools::tools_of;
use crate::sources::{Source, sources_of};
use dependency_graph::Graph;
use outside::{Blob, Host, Items, JobId, Memory, Text, Tool};
use plan_request::PlanRequest;
use replica_catalog::ReplicaCatalog;
use run_record::RunFault;
use std::alloc::Global;
use workflow_core::Workflow;
use workflow_eval::{EvalFault, evaluate_in};

/// The source of each file that no job makes, and the tool of each job, by number.
#[derive(Drop)]
pub struct Prepared {
    pub sources: Items<Option<Source>>,
    pub tools: Items<Text>,
}

fn prepare<T: Tool>(
    alloc: Global,
    workflow: &Workflow,
    graph: &Graph,
    replicas: &ReplicaCatalog,
    request: &PlanRequest,
    tool: &T,
) -> Result<Prepared, EvaluationFault>
    requires well_formed { IsWellFormed workflow.now }
    requires graph { IsGraphOf workflow.now graph.now }
    ensures { UnlessMemory result
        (result ≡ prepared T.known
        (subject workflow.now graph.now.ordered replicas.now.entries request.now.tools)) }
{
    let sources = match sources_of(alloc, workflow, graph, replicas) {
        Ok(sources) => Items::new(sources),
        Err(fault) => return Err(fault),
    };
    match tools_of(alloc, request, workflow, tool) {
        Ok(tools) => Ok(Prepared {
            sources,
            tools: Items::new(tools),
        }),
        Err(fault) => {
            drop(sources);
            Err(fault)
        }
    }
}

fn id_of(alloc: Global, workflow: &Workflow, job: JobId) -> Result<Text, Memory>
    requires { job.0 < length workflow.now.jobs }
    ensures { IfOk result (IsIdOf workflow.now job.0) }
{
    let jobs = workflow.jobs.as_slice();
    let job = &jobs[job.0 as usize];
    job.id.copied(alloc)
}

fn of_eval_fault(alloc: Global, workflow: &Workflow, fault: EvalFault) -> EvaluationFault
    requires { NamesJob workflow.now fault }
    ensures { AnswersFault workflow.now fault result }
{
    let fault = match fault {
        EvalFault::Declined(job) => match id_of(alloc, workflow, job) {
            Ok(id) => RunFault::Declined(id),
            Err(Memory) => RunFault::Memory,
        },
        EvalFault::ToolFailed(job) => match id_of(alloc, workflow, job) {
            Ok(id) => RunFault::ToolFailed(id),
            Err(Memory) => RunFault::Memory,
        },
        EvalFault::Memory => RunFault::Memory,
    };
    EvaluationFault::Failed(fault)
}

/// The value of each file, by number: sources and tools are looked up, then the bases are read, and
/// then the jobs run in the graph's order.
pub fn values_of<H: Host, T: Tool>(
    alloc: Global,
    workflow: &Workflow,
    graph: &Graph,
    replicas: &ReplicaCatalog,
    request: &PlanRequest,
    host: &mut H,
    tool: &mut T,
) -> Result<Vec<Blob>, EvaluationFault>
    requires well_formed { IsWellFormed workflow.now }
    requires graph { IsGraphOf workflow.now graph.now }
    ensures answer { Evaluated (meeting H.Host T.Tool host.old tool.old host.new tool.new)
        (subject workflow.now graph.now.ordered replicas.now.entries request.now.tools) result }
    ensures requested { IfOk result (λ values.
        HasValues (meeting H.Host T.Tool host.old tool.old host.new tool.new)
        (subject workflow.now graph.now.ordered replicas.now.entries request.now.tools)
        (chosen workflow.now values.items)) }
    ensures told { H.told host.new ≡ H.told host.old }
    ensures later { IsLater (H.counts host.old) (H.counts host.new) }
    ensures runs { T.runs tool.new ≤ T.runs tool.old + length graph.now.ordered }
{
    let prepared = match prepare(alloc, workflow, graph, replicas, request, tool) {
        Ok(prepared) => prepared,
        Err(fault) => return Err(fault),
    };
    let bases = match read_bases(alloc, host, prepared.sources.as_slice()) {
        Ok(bases) => bases,
        Err(fault) => {
            drop(prepared);
            return Err(fault);
        }
    };
    let tools = prepared.tools.as_slice();
    match evaluate_in(alloc, workflow, graph, tools, bases, tool) {
        Ok(values) => {
            drop(prepared);
            Ok(values)
        }
        Err(fault) => {
            drop(prepared);
            Err(of_eval_fault(alloc, workflow, fault))
        }
    }
}
