//! The files that outputs mark: those to be delivered, and those to be registered.

ghost use Rattle.std.specs.Prelude.{◌≡◌, ◌++◌, ℕ, length, IfOk, OnOk};
ghost use Rattle.workflow_core.specs.code.WellFormed.{IsWellFormed};
ghost use Rattle.workflow_core.specs.Requested.{is_requested};
ghost use Rattle.plan_core.specs.code.Numbers.{RisesFrom};
ghost use Rattle.plan_core.specs.Numbers.{below, has};
ghost use Rattle.transfer_refiner.specs.code.Marked.{requested_by, flagged_by, all_requested, all_flagged};
ghost use Rattle.transfer_refiner.specs.Tasks.{is_flagged};

use plan_core::sorted;
use std::alloc::Global;
use values::Memory;
use workflow_core::{Output, Workflow};

fn push_requested(files: &mut Vec<u32>, outputs: &[Output]) -> Result<(), Memory>
    ensures { OnOk result (files.new.items ≡ files.old.items ++ requested_by outputs.now) }
{
    for output in outputs {
        if output.stage_out {
            files.push(output.file.0)?;
        }
    }
    Ok(())
}

fn push_flagged(files: &mut Vec<u32>, outputs: &[Output]) -> Result<(), Memory>
    ensures { OnOk result (files.new.items ≡ files.old.items ++ flagged_by outputs.now) }
{
    for output in outputs {
        if output.register {
            files.push(output.file.0)?;
        }
    }
    Ok(())
}

fn all_requested(alloc: Global, workflow: &Workflow) -> Result<Vec<u32>, Memory>
    ensures { IfOk result (λ v. v.items ≡ all_requested workflow.now.jobs) }
{
    let mut files = Vec::new(alloc);
    for job in workflow.jobs.as_slice() {
        push_requested(&mut files, job.outputs.as_slice())?;
    }
    Ok(files)
}

fn all_flagged(alloc: Global, workflow: &Workflow) -> Result<Vec<u32>, Memory>
    ensures { IfOk result (λ v. v.items ≡ all_flagged workflow.now.jobs) }
{
    let mut files = Vec::new(alloc);
    for job in workflow.jobs.as_slice() {
        push_flagged(&mut files, job.outputs.as_slice())?;
    }
    Ok(files)
}

/// The files to be delivered, in rising order.
pub fn requested_files(alloc: Global, workflow: &Workflow) -> Result<Vec<u32>, Memory>
    requires { IsWellFormed workflow.now }
    ensures { IfOk result (λ v. v.items ≡ below (length workflow.now.files) (is_requested workflow.now)) }
{
    let files = sorted(all_requested(alloc, workflow)?);
    Ok(files)
}

/// The files with the flag that they are to be registered, in rising order.
pub fn flagged_files(alloc: Global, workflow: &Workflow) -> Result<Vec<u32>, Memory>
    ensures rises { IfOk result (λ v. RisesFrom 0 v.items) }
    ensures same { IfOk result (λ v. (f : ℕ) → has v.items f ≡ is_flagged workflow.now f) }
{
    let files = sorted(all_flagged(alloc, workflow)?);
    Ok(files)
}
