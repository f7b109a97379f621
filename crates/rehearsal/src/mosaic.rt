//! The one requested file of a workload.

ghost use Rattle.std.specs.Prelude.{◌≡◌, ◌<◌, ◌^◌, ◌==◌, ◌&&◌, [], codes, length, not, IfSome, OnOk, slice_index_or};
ghost use Rattle.std.specs.List.{list_any};
ghost use Rattle.workflow_core.specs.Requested.{requests};
ghost use Rattle.rehearsal.specs.Mosaic.{requests_other};
ghost use Rattle.rehearsal.specs.Preparing.{HasMosaic};

use outside::{FileId, Memory, Text};
use planner::Surveyed;
use workflow_core::{Job, Output};

/// Whether one of the outputs has the file, to be delivered.
fn has_file(outputs: &[Output], file: FileId) -> bool
    ensures { result ≡ list_any (λ o. o.stage_out && (o.file.0 == file.0)) outputs.now }
{
    for output in outputs {
        if output.stage_out && output.file.0 == file.0 {
            return true;
        }
    }
    false
}

/// Whether one of the outputs has another file, to be delivered.
fn has_other(outputs: &[Output], file: FileId) -> bool
    ensures { result ≡ list_any (λ o. o.stage_out && not (o.file.0 == file.0)) outputs.now }
{
    for output in outputs {
        if output.stage_out && output.file.0 != file.0 {
            return true;
        }
    }
    false
}

/// Whether a job makes the file to be delivered.
fn is_requested(jobs: &[Job], file: FileId) -> bool
    ensures { result ≡ list_any (requests file.0) jobs.now }
{
    for job in jobs {
        if has_file(job.outputs.as_slice(), file) {
            return true;
        }
    }
    false
}

/// Whether a job makes another file to be delivered.
fn is_other_requested(jobs: &[Job], file: FileId) -> bool
    ensures { result ≡ list_any (requests_other file.0) jobs.now }
{
    for job in jobs {
        if has_other(job.outputs.as_slice(), file) {
            return true;
        }
    }
    false
}

/// The file with the mosaic's name.
fn mosaic_of(files: &[Text]) -> Option<FileId>
    requires { length files.now < 2 ^ 32 }
    ensures { IfSome result (λ f. (f.0 < length files.now)
        × (slice_index_or files.now f.0 [] ≡ codes "mosaic.txt")) }
{
    for (number, name) in files.iter().enumerate() {
        if name.as_str() == "mosaic.txt" {
            return Some(FileId(number as u32));
        }
    }
    None
}

/// Looks whether mosaic.txt is the one requested file, which it is for every workload.
pub(crate) fn check_mosaic(surveyed: &Surveyed) -> Result<(), Memory>
    ensures { OnOk result (HasMosaic surveyed.now) }
{
    let workflow = &surveyed.survey.workflow;
    let jobs = workflow.jobs.as_slice();
    let Some(mosaic) = mosaic_of(workflow.files.as_slice()) else {
        return Err(Memory);
    };
    if !is_requested(jobs, mosaic) {
        return Err(Memory);
    }
    if is_other_requested(jobs, mosaic) {
        return Err(Memory);
    }
    Ok(())
}
