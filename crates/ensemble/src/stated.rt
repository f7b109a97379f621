//! What the joint request states for a member.

ghost use Rattle.std.specs.Prelude.{◌≡◌, ◌++◌, length, IfOk, OnOk};
ghost use Rattle.plan_request.specs.FileSizes.{declared_sizes};
ghost use Rattle.ensemble.specs.Stated.{stated_size, stated_sizes, stated_tool, stated_tools};

use crate::prefix::prefixed;
use plan_request::{PlanRequest, SizeOf, ToolOf, Tools, declared_sizes};
use std::alloc::Global;
use values::{Memory, Text};
use workflow_core::Job;

fn add_size(
    alloc: Global,
    sizes: &mut Vec<SizeOf>,
    member: &Text,
    file: &Text,
    size: Option<u64>,
) -> Result<(), Memory>
    ensures { OnOk result
        (sizes.new.items ≡ sizes.old.items ++ stated_size member.now file.now size) }
{
    if let Some(size) = size {
        let lfn = prefixed(alloc, member, file)?;
        sizes.push(SizeOf { lfn, size })?;
    }
    Ok(())
}

fn add_each(
    alloc: Global,
    sizes: &mut Vec<SizeOf>,
    member: &Text,
    files: &[Text],
    declared: &[Option<u64>],
) -> Result<(), Memory>
    ensures { OnOk result
        (sizes.new.items ≡ sizes.old.items ++ stated_sizes member.now files.now declared.now) }
{
    for (file, size) in files.iter().zip(declared.iter()) {
        add_size(alloc, sizes, member, file, *size)?;
    }
    Ok(())
}

/// Adds the declared size of each file of a member, by the member's own request.
pub fn add_sizes(
    alloc: Global,
    sizes: &mut Vec<SizeOf>,
    member: &Text,
    request: &PlanRequest,
    files: &[Text],
    stated: &[Option<u64>],
) -> Result<(), Memory>
    requires one_for_each_file { length files.now ≡ length stated.now }
    ensures { OnOk result (sizes.new.items ≡ sizes.old.items
        ++ stated_sizes member.now files.now (declared_sizes request.now files.now stated.now)) }
{
    let declared = declared_sizes(alloc, request, files, stated)?;
    add_each(alloc, sizes, member, files, &declared)
}

fn tool_of(alloc: Global, known: &Tools<'_>, member: &Text, job: &Job) -> Result<ToolOf, Memory>
    ensures { IfOk result (λ t. t ≡ stated_tool member.now known.now job.now) }
{
    let name = &job.transformation.name;
    let tool = known.tool_of(name).copied(alloc)?;
    let transformation = prefixed(alloc, member, name)?;
    Ok(ToolOf {
        transformation,
        tool,
    })
}

fn add_known(
    alloc: Global,
    tools: &mut Vec<ToolOf>,
    known: &Tools<'_>,
    member: &Text,
    jobs: &[Job],
) -> Result<(), Memory>
    ensures { OnOk result (tools.new.items ≡ tools.old.items ++ stated_tools member.now known.now jobs.now) }
{
    for job in jobs {
        tools.push(tool_of(alloc, known, member, job)?)?;
    }
    Ok(())
}

/// Adds the tool of each job of a member, by the member's own request.
pub fn add_tools(
    alloc: Global,
    tools: &mut Vec<ToolOf>,
    member: &Text,
    request: &PlanRequest,
    jobs: &[Job],
) -> Result<(), Memory>
    ensures { OnOk result (tools.new.items
        ≡ tools.old.items ++ stated_tools member.now request.now.tools jobs.now) }
{
    let known = Tools::new(alloc, request)?;
    let added = add_known(alloc, tools, &known, member, jobs);
    drop(known);
    added
}
