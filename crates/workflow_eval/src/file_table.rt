//! A table with a place for each file, filled job by job.

ghost use Rattle.std.specs.Prelude.{◌≡◌, ◌<◌, Option, Some, length, IfOk, IsSome, All};
ghost use Rattle.values.specs.Apply.{all_of};
ghost use Rattle.workflow_core.specs.WellFormed.{inputs_of, outputs_of};
ghost use Rattle.workflow_eval.specs.FileTable.{looked_up, placed, IsLookedUp};

use outside::{Blob, Memory};
use std::alloc::Global;
use workflow_core::Job;

fn copy_of(alloc: Global, base: &Option<Blob>) -> Result<Option<Blob>, Memory>
    ensures { IfOk result (λ b. b ≡ base.now) }
{
    match base {
        Some(blob) => Ok(Some(Blob::copy_of(alloc, blob.as_slice())?)),
        None => Ok(None),
    }
}

/// A table with each base at its place.
pub fn table_of(alloc: Global, base: &[Option<Blob>]) -> Result<Vec<Option<Blob>>, Memory>
    ensures { IfOk result (λ table. table.items ≡ base.now) }
{
    let mut table = Vec::new(alloc);
    for bytes in base {
        table.push(copy_of(alloc, bytes)?)?;
    }
    Ok(table)
}

/// The blobs at the places of a job's inputs, if each is there.
fn look_up(alloc: Global, table: &[Option<Blob>], job: &Job) -> Result<Option<Vec<Blob>>, Memory>
    ensures { IfOk result (λ o. IsLookedUp (looked_up table.now (inputs_of job.now)) o) }
{
    let mut blobs = Vec::new(alloc);
    for file in job.inputs.as_slice() {
        match table.get(file.0 as usize) {
            Some(Some(blob)) => blobs.push(Blob::copy_of(alloc, blob.as_slice())?)?,
            _ => return Ok(None),
        }
    }
    Ok(Some(blobs))
}

/// Copies of the blobs at the places of a job's inputs.
pub fn copies_of(alloc: Global, table: &[Option<Blob>], job: &Job) -> Result<Vec<Blob>, Memory>
    requires { IsSome (looked_up table.now (inputs_of job.now)) }
    ensures { IfOk result (λ v. looked_up table.now (inputs_of job.now) ≡ Some v.items) }
{
    match look_up(alloc, table, job)? {
        Some(blobs) => Ok(blobs),
        None => unreachable!(),
    }
}

/// Puts each blob at the place of the job's output.
pub fn place(table: &mut Vec<Option<Blob>>, job: &Job, blobs: Vec<Blob>)
    requires same { length job.now.outputs ≡ length blobs.items }
    requires in_range { All (λ o. o.file.0 < length table.old.items) job.now.outputs }
    ensures { table.new.items ≡ placed (outputs_of job.now) blobs.items table.old.items }
{
    let outputs = job.outputs.as_slice();
    let mut blobs = blobs;
    let mut at = outputs.len();
    while at > 0 {
        at -= 1;
        if let Some(blob) = blobs.pop() {
            table[outputs[at].file.0 as usize] = Some(blob);
        }
    }
}

/// The blobs of a table, taken out of it in order, if each is there.
fn take_out(alloc: Global, table: Vec<Option<Blob>>) -> Result<Option<Vec<Blob>>, Memory>
    ensures { IfOk result (λ o. IsLookedUp (all_of table.items) o) }
{
    let mut blobs = Vec::new(alloc);
    for place in table {
        match place {
            Some(blob) => blobs.push(blob)?,
            None => return Ok(None),
        }
    }
    Ok(Some(blobs))
}

/// The blobs of a full table, taken out of it in order.
pub fn into_blobs(alloc: Global, table: Vec<Option<Blob>>) -> Result<Vec<Blob>, Memory>
    requires { IsSome (all_of table.items) }
    ensures { IfOk result (λ v. all_of table.items ≡ Some v.items) }
{
    match take_out(alloc, table)? {
        Some(blobs) => Ok(blobs),
        None => unreachable!(),
    }
}
