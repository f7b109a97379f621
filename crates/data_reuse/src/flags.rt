//! A flag for each file.

ghost use Rattle.std.specs.Prelude.{◌≡◌, ◌||◌, ℕ, length, IfOk};
ghost use Rattle.workflow_core.specs.code.WellFormed.{IsWellFormed, IsJobOver};
ghost use Rattle.workflow_core.specs.Requested.{requests, is_requested};
ghost use Rattle.data_reuse.specs.code.Flags.{is_set, reads};

use std::alloc::Global;
use values::{FileId, Memory};
use workflow_core::{Job, Workflow};

pub fn is_set(flags: &[bool], file: FileId) -> bool
    ensures { result ≡ is_set flags.now file.0 }
{
    match flags.get(file.0 as usize) {
        Some(flag) => *flag,
        None => false,
    }
}

/// Sets the flags of a job's inputs.
pub fn set_inputs(flags: &mut Vec<bool>, job: &Job)
    requires { IsJobOver (length flags.old.items) job.now }
    ensures long { length flags.new.items ≡ length flags.old.items }
    ensures each { (f : ℕ) → is_set flags.new.items f ≡ (reads f job.now || is_set flags.old.items f) }
{
    for file in job.inputs.as_slice() {
        flags[file.0 as usize] = true;
    }
}

/// Sets the flags of the outputs that a job has to deliver.
fn set_requested(flags: &mut Vec<bool>, job: &Job)
    requires { IsJobOver (length flags.old.items) job.now }
    ensures long { length flags.new.items ≡ length flags.old.items }
    ensures each { (f : ℕ) → is_set flags.new.items f ≡ (requests f job.now || is_set flags.old.items f) }
{
    for output in job.outputs.as_slice() {
        if output.stage_out {
            flags[output.file.0 as usize] = true;
        }
    }
}

/// The flags of the requested files.
pub fn requested_files(alloc: Global, workflow: &Workflow) -> Result<Vec<bool>, Memory>
    requires { IsWellFormed workflow.now }
    ensures long { IfOk result (λ v. length v.items ≡ length workflow.now.files) }
    ensures each { IfOk result (λ v. (f : ℕ) → is_set v.items f ≡ is_requested workflow.now f) }
{
    let mut flags = vec![in alloc; false; workflow.files.as_slice().len()]?;
    for job in workflow.jobs.as_slice() {
        set_requested(&mut flags, job);
    }
    Ok(flags)
}
