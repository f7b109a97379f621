//! Jobs of a member, in the joint of all members.

ghost use Rattle.std.specs.Prelude.{◌≡◌, ◌++◌, ◌+◌, ◌<◌, ◌^◌, map, IfOk, OnOk};
ghost use Rattle.std.specs.List.{All};
ghost use Rattle.values.specs.declared.numbers.FileId as file_ids;
ghost use Rattle.workflow_core.specs.declared.workflow.Output as made_files;
ghost use Rattle.ensemble.specs.Jobs.{FitsAfter, PairFitsAfter, file_after, job_of, output_after, pair_after};

use crate::copying::option_copied;
use crate::prefix::{prefixed, transformation_of};
use plan_core::texts_copied;
use std::alloc::Global;
use values::{FileId, Items, JobId, Memory, Text};
use workflow_core::{Job, Output};

fn files_after(alloc: Global, first: u32, files: &[FileId]) -> Result<Items<FileId>, Memory>
    requires { All (λ (f : file_ids.FileId). first + f.0 < 2 ^ 32) files.now }
    ensures { IfOk result (λ later. later ≡ map (file_after first) files.now) }
{
    let mut later = Vec::new(alloc);
    for file in files {
        later.push(FileId(first + file.0))?;
    }
    Ok(Items::new(later))
}

fn outputs_after(alloc: Global, first: u32, outputs: &[Output]) -> Result<Items<Output>, Memory>
    requires { All (λ (o : made_files.Output). first + o.file.0 < 2 ^ 32) outputs.now }
    ensures { IfOk result (λ later. later ≡ map (output_after first) outputs.now) }
{
    let mut later = Vec::new(alloc);
    for output in outputs {
        later.push(Output {
            file: FileId(first + output.file.0),
            stage_out: output.stage_out,
            register: output.register,
        })?;
    }
    Ok(Items::new(later))
}

/// A job under its member's name, where the members before have `first` files.
fn job_of(alloc: Global, member: &Text, first: u32, job: &Job) -> Result<Job, Memory>
    requires { FitsAfter first job.now }
    ensures { IfOk result (λ j. j ≡ job_of member.now first job.now) }
{
    Ok(Job {
        id: prefixed(alloc, member, &job.id)?,
        transformation: transformation_of(alloc, member, &job.transformation)?,
        arguments: texts_copied(alloc, job.arguments.as_slice())?,
        inputs: files_after(alloc, first, job.inputs.as_slice())?,
        outputs: outputs_after(alloc, first, job.outputs.as_slice())?,
        label: option_copied(alloc, &job.label)?,
        cluster_size: option_copied(alloc, &job.cluster_size)?,
        cluster_num: option_copied(alloc, &job.cluster_num)?,
        pinned: option_copied(alloc, &job.pinned)?,
    })
}

/// Adds a member's jobs, where the members before have `first` files.
pub fn add_jobs(
    alloc: Global,
    jobs: &mut Vec<Job>,
    member: &Text,
    first: u32,
    more: &[Job],
) -> Result<(), Memory>
    requires { All (FitsAfter first) more.now }
    ensures { OnOk result
        (jobs.new.items ≡ jobs.old.items ++ map (job_of member.now first) more.now) }
{
    for job in more {
        jobs.push(job_of(alloc, member, first, job)?)?;
    }
    Ok(())
}

/// Adds a member's pairs, where the members before have `first` jobs.
pub fn add_pairs(
    pairs: &mut Vec<(JobId, JobId)>,
    first: u32,
    more: &[(JobId, JobId)],
) -> Result<(), Memory>
    requires { All (PairFitsAfter first) more.now }
    ensures { OnOk result (pairs.new.items ≡ pairs.old.items ++ map (pair_after first) more.now) }
{
    for pair in more {
        pairs.push((JobId(first + pair.0.0), JobId(first + pair.1.0)))?;
    }
    Ok(())
}
