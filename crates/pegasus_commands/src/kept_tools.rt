//! The tools of a plan's kept jobs.

ghost use Rattle.std.specs.Prelude.{◌≡◌, IfOk};
ghost use Rattle.pegasus_commands.specs.code.KeptTools.{lacks_tool, unknown_tool};

use outside::{Memory, Tool};
use plan_core::{Plan, PlanJob};
use planner::PlanFault;
use std::alloc::Global;

fn lacks_tool<T: Tool>(tool: &T, job: &PlanJob) -> bool
    ensures { result ≡ lacks_tool T.known job.now }
{
    job.site.is_some() && !tool.knows(job.tool.as_str())
}

/// The fault of the first kept job whose tool isn't known.
pub(crate) fn unknown_tool<T: Tool>(
    alloc: Global,
    plan: &Plan,
    tool: &T,
) -> Result<Option<PlanFault>, Memory>
    ensures { IfOk result (λ o. o ≡ unknown_tool T.known plan.now.jobs) }
{
    for job in plan.jobs.as_slice() {
        if lacks_tool(tool, job) {
            let id = job.id.copied(alloc)?;
            let name = job.tool.copied(alloc)?;
            return Ok(Some(PlanFault::ToolUnknown(id, name)));
        }
    }
    Ok(None)
}
