//! The tools of the jobs.

ghost use Rattle.std.specs.Prelude.{◌≡◌};
ghost use Rattle.plan_request.specs.JobTools.{tool_of};
ghost use Rattle.evaluation.specs.Fault.{UnlessMemory, items_of};
ghost use Rattle.evaluation.specs.JobTools.{known_tool, tools_of};

use crate::fault::EvaluationFault;
use outside::{Text, Tool};
use plan_request::{PlanRequest, Tools};
use std::alloc::Global;
use workflow_core::{Job, Workflow};

/// A tool that is known, for a job.
fn known_tool<T: Tool>(
    alloc: Global,
    tool: &T,
    job: &Job,
    name: &Text,
) -> Result<Text, EvaluationFault>
    ensures { UnlessMemory result (result ≡ known_tool T.known job.now name.now) }
{
    let name = name.copied(alloc)?;
    if tool.knows(name.as_str()) {
        return Ok(name);
    }
    let id = job.id.copied(alloc)?;
    Err(EvaluationFault::ToolUnknown(id, name))
}

/// The tool that is stated for a job, if it is known.
fn tool_of_job<T: Tool>(
    alloc: Global,
    stated: &Tools<'_>,
    tool: &T,
    job: &Job,
) -> Result<Text, EvaluationFault>
    ensures { UnlessMemory result
        (result ≡ known_tool T.known job.now (tool_of stated.now job.now.transformation.name)) }
{
    let name = stated.tool_of(&job.transformation.name);
    known_tool(alloc, tool, job, name)
}

/// The tool of each of these jobs, up to the first one whose tool isn't known.
fn known_tools<T: Tool>(
    alloc: Global,
    stated: &Tools<'_>,
    jobs: &[Job],
    tool: &T,
) -> Result<Vec<Text>, EvaluationFault>
    ensures { UnlessMemory result (items_of result ≡ tools_of T.known stated.now jobs.now) }
{
    let mut tools = Vec::new(alloc);
    for job in jobs {
        match tool_of_job(alloc, stated, tool, job) {
            Ok(name) => tools.push(name)?,
            Err(fault) => return Err(fault),
        }
    }
    Ok(tools)
}

/// The tool of each job, by number. The first job whose tool isn't known is refused.
pub(crate) fn tools_of<T: Tool>(
    alloc: Global,
    request: &PlanRequest,
    workflow: &Workflow,
    tool: &T,
) -> Result<Vec<Text>, EvaluationFault>
    ensures { UnlessMemory result
        (items_of result ≡ tools_of T.known request.now.tools workflow.now.jobs) }
{
    let stated = Tools::new(alloc, request)?;
    let tools = known_tools(alloc, &stated, workflow.jobs.as_slice(), tool);
    drop(stated);
    tools
}
