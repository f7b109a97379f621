//! The joint request.

ghost use Rattle.std.specs.Prelude.{◌≡◌, IfOk};
ghost use Rattle.std.specs.List.{All};
ghost use Rattle.plan_request.specs.code.Limits.{IsWithinLimits};
ghost use Rattle.ensemble.specs.Member.{AreMembers, IsMember};
ghost use Rattle.ensemble.specs.Requests.{joint_request, joint_sizes, joint_tools};

use crate::copying::{executions_copied, policy_copied};
use crate::member::Member;
use crate::stated::{add_sizes, add_tools};
use plan_request::{PlanRequest, Selector, SizeOf, ToolOf};
use std::alloc::Global;
use values::{Items, Memory, Text};

fn joint_sizes(alloc: Global, members: &[Member]) -> Result<Items<SizeOf>, Memory>
    requires { All IsMember members.now }
    ensures { IfOk result (λ sizes. sizes ≡ joint_sizes members.now) }
{
    let mut sizes = Vec::new(alloc);
    for member in members {
        let workflow = &member.survey.workflow;
        let files = workflow.files.as_slice();
        let stated = workflow.sizes.as_slice();
        add_sizes(
            alloc,
            &mut sizes,
            &member.name,
            &member.request,
            files,
            stated,
        )?;
    }
    Ok(Items::new(sizes))
}

fn joint_tools(alloc: Global, members: &[Member]) -> Result<Items<ToolOf>, Memory>
    ensures { IfOk result (λ tools. tools ≡ joint_tools members.now) }
{
    let mut tools = Vec::new(alloc);
    for member in members {
        let jobs = member.survey.workflow.jobs.as_slice();
        add_tools(alloc, &mut tools, &member.name, &member.request, jobs)?;
    }
    Ok(Items::new(tools))
}

/// The request of all members, where the ensemble asks for this. Its sites are chosen in turns, whatever members ask for.
pub fn joint_request(
    alloc: Global,
    members: &[Member],
    request: &PlanRequest,
) -> Result<PlanRequest, Memory>
    requires members { AreMembers members.now }
    requires limits { IsWithinLimits request.now }
    ensures joint { IfOk result (λ r. r ≡ joint_request members.now request.now) }
    ensures limits { IfOk result (λ r. IsWithinLimits r) }
{
    let sizes = joint_sizes(alloc, members)?;
    let tools = joint_tools(alloc, members)?;
    let execute = executions_copied(alloc, request.execute.as_slice())?;
    let workflow = Text::copy_of(alloc, "")?;
    Ok(PlanRequest {
        workflow,
        sites: None,
        replicas: None,
        transformations: None,
        execute,
        sizes,
        default_size: None,
        cluster: request.cluster,
        cleanup: request.cleanup,
        force: request.force,
        tools,
        policy: policy_copied(&request.policy),
        selector: Selector::RoundRobin,
        rate: 1,
        runtimes: Items::new(Vec::new(alloc)),
    })
}
