//! Jobs with their files by number.

ghost use Rattle.std.specs.Prelude.{◌≡◌, ◌≤◌, length, map, IfOk};
ghost use Rattle.workflow_reader.specs.declared.document.Direction.TheVariants as directions;
ghost use Rattle.workflow_reader.specs.Linking.{uses_as, file_of, output_of};
ghost use Rattle.workflow_reader.specs.Linking.{linked_job};

use crate::document::{Direction, JobEntry, Use};
use std::alloc::Global;
use values::{FileId, Items, Memory};
use workflow_core::{Job, Names, Output};

fn file_of(files: &Names, used: &Use) -> FileId
    requires { length files.now ≤ 50000 }
    ensures { result ≡ file_of files.now used.now }
{
    FileId(files.number(&used.lfn) as u32)
}

fn output_of(files: &Names, used: &Use) -> Output
    requires { length files.now ≤ 50000 }
    ensures { result ≡ output_of files.now used.now }
{
    Output {
        file: file_of(files, used),
        stage_out: used.stage_out,
        register: used.register,
    }
}

fn inputs_of(alloc: Global, files: &Names, uses: &[Use]) -> Result<Items<FileId>, Memory>
    requires { length files.now ≤ 50000 }
    ensures { IfOk result (λ inputs. inputs ≡ map (file_of files.now) (uses_as directions.Input uses.now)) }
{
    let mut inputs = Vec::new(alloc);
    for used in uses {
        if matches!(used.direction, Direction::Input) {
            inputs.push(file_of(files, used))?;
        }
    }
    Ok(Items::new(inputs))
}

fn outputs_of(alloc: Global, files: &Names, uses: &[Use]) -> Result<Items<Output>, Memory>
    requires { length files.now ≤ 50000 }
    ensures { IfOk result (λ outputs. outputs
        ≡ map (output_of files.now) (uses_as directions.Output uses.now)) }
{
    let mut outputs = Vec::new(alloc);
    for used in uses {
        if matches!(used.direction, Direction::Output) {
            outputs.push(output_of(files, used))?;
        }
    }
    Ok(Items::new(outputs))
}

fn linked_job(alloc: Global, files: &Names, job: JobEntry) -> Result<Job, Memory>
    requires { length files.now ≤ 50000 }
    ensures { IfOk result (λ linked. linked ≡ linked_job files.now job) }
{
    let Ok(inputs) = inputs_of(alloc, files, job.uses.as_slice()) else {
        drop(job);
        return Err(Memory);
    };
    let Ok(outputs) = outputs_of(alloc, files, job.uses.as_slice()) else {
        drop(inputs);
        drop(job);
        return Err(Memory);
    };
    drop(job.uses);
    Ok(Job {
        id: job.id,
        transformation: job.transformation,
        arguments: job.arguments,
        inputs,
        outputs,
        label: job.label,
        cluster_size: job.cluster_size,
        cluster_num: job.cluster_num,
        pinned: job.pinned,
    })
}

/// The jobs, each file by its place among the names.
pub fn linked_jobs(alloc: Global, files: &Names, jobs: Vec<JobEntry>) -> Result<Items<Job>, Memory>
    requires { length files.now ≤ 50000 }
    ensures { IfOk result (λ linked. linked ≡ map (linked_job files.now) jobs.items) }
{
    let mut linked = Vec::new(alloc);
    for job in jobs {
        linked.push(linked_job(alloc, files, job)?)?;
    }
    Ok(Items::new(linked))
}
