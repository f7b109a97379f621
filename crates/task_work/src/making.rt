//! What a Run's drafts hold: what its jobs make of its readings.

ghost use Rattle.std.specs.Prelude.{◌≡◌, ◌+◌, ◌≤◌, ◌++◌, ◌∷◌, [], IfErr, IfOk, OnOk, length, map, true};
ghost use Rattle.plan_core.specs.code.Proper.{IsProper};
ghost use Rattle.plan_core.specs.Words.{is_run, kind, reads, writes};
ghost use Rattle.lease_rules.specs.Legal.{CauseFits};
ghost use Rattle.lease_rules.specs.code.Storing.{pair_limit};
ghost use Rattle.task_work.specs.Computing.{jobs_in};
ghost use Rattle.task_work.specs.Making.{AreBegun, AreEmpty, AreStored, AreWritten, Each, Fits, IsFaultOf, IsRunCause, IsShown, MakesWithin, OfRead, blames, limit_of};
ghost use Rattle.outside.specs.code.Parts.{draft_faults, part_faults, reading_faults};
ghost use Rattle.task_work.specs.Pieces.{HasRead, IsSteadyDraft, IsSteadyReading, fails_in};

use crate::computing::compute;
use crate::moving::part_cause;
use crate::overlong::find_overlong;
use crate::pieces::{read_whole, write_whole};
use outside::{Blob, HostFault, Memory, ReadPart, TaskId, Tool, WritePart};
use plan_core::Plan;
use run_record::Cause;
use std::alloc::Global;

fn keep(blobs: &mut Vec<Blob>, blob: Blob) -> Result<(), Memory>
    ensures { OnOk result (blobs.new.items ≡ blobs.old.items ++ blob ∷ []) }
{
    blobs.push(blob)?;
    Ok(())
}

/// All bytes of some readings, in order.
fn read_all<I: ReadPart>(alloc: Global, readings: &mut [I]) -> Result<Vec<Blob>, HostFault>
    requires start { AreBegun (map I.state readings.old) }
    ensures read { IfOk result (λ v. Each HasRead (map I.state readings.old) v.items) }
    ensures fault { IfErr result (λ e. IsFaultOf (reading_faults (map I.state readings.old))
        (reading_faults (map I.state readings.new)) e) }
    ensures once { reading_faults (map I.state readings.new)
        ≤ reading_faults (map I.state readings.old) + fails_in result }
    ensures steady { Each IsSteadyReading (map I.state readings.old) (map I.state readings.new) }
{
    let mut blobs = Vec::new(alloc);
    for reading in readings.iter_mut() {
        let blob = match read_whole(alloc, reading) {
            Ok(blob) => blob,
            Err(fault) => return Err(fault),
        };
        match keep(&mut blobs, blob) {
            Ok(()) => {}
            Err(_) => return Err(HostFault::Memory),
        }
    }
    Ok(blobs)
}

/// Writes bytes to empty drafts, in order.
fn write_all<O: WritePart>(
    alloc: Global,
    drafts: &mut [O],
    outputs: &[Blob],
) -> Result<(), HostFault>
    requires empty { AreEmpty (map O.state drafts.old) }
    requires many { length outputs.now ≡ length drafts.old }
    requires fit { Each Fits (map O.state drafts.old) outputs.now }
    ensures written { OnOk result (AreWritten (map O.state drafts.old) (map O.state drafts.new) outputs.now) }
    ensures fault { IfErr result (λ e. IsFaultOf (draft_faults (map O.state drafts.old))
        (draft_faults (map O.state drafts.new)) e) }
    ensures once { draft_faults (map O.state drafts.new)
        ≤ draft_faults (map O.state drafts.old) + fails_in result }
    ensures steady { Each IsSteadyDraft (map O.state drafts.old) (map O.state drafts.new) }
{
    for k in 0..outputs.len() {
        match write_whole(alloc, &mut drafts[k], outputs[k].as_slice()) {
            Ok(()) => {}
            Err(fault) => return Err(fault),
        }
    }
    Ok(())
}

fn lengths(alloc: Global, outputs: &[Blob]) -> Result<Vec<u64>, Memory>
    ensures { IfOk result (λ v. v.items ≡ map length outputs.now) }
{
    let mut sizes = Vec::new(alloc);
    for output in outputs {
        sizes.push(output.as_slice().len() as u64)?;
    }
    Ok(sizes)
}

/// Computes what a Run's jobs make, and looks at its sizes.
fn make_outputs<T: Tool>(
    alloc: Global,
    plan: &Plan,
    task: TaskId,
    blobs: Vec<Blob>,
    tool: &mut T,
) -> Result<Vec<Blob>, Cause>
    requires proper { IsProper plan.now }
    requires run { is_run plan.now task.0 ≡ true }
    ensures makes { MakesWithin T.apply plan.now task.0 blobs.items (T.faults tool.old)
        (T.faults tool.new) result }
    ensures fits { IfErr result (λ c. CauseFits plan.now task.0 c []) }
    ensures tool { T.faults tool.old ≤ T.faults tool.new }
    ensures runs { T.runs tool.new ≤ T.runs tool.old + length (jobs_in (kind plan.now task.0)) }
{
    let outputs = match compute(alloc, plan, task, blobs, tool) {
        Ok(outputs) => outputs,
        Err(cause) => return Err(cause),
    };
    match find_overlong(plan, task, &outputs) {
        None => Ok(outputs),
        Some(over) => Err(Cause::Oversize(over.job, over.file, over.length)),
    }
}

/// Writes outputs to empty drafts, in order, and tells their lengths.
fn store<O: WritePart>(
    alloc: Global,
    drafts: &mut [O],
    outputs: &[Blob],
) -> Result<Vec<u64>, HostFault>
    requires empty { AreEmpty (map O.state drafts.old) }
    requires many { length outputs.now ≡ length drafts.old }
    requires fit { Each Fits (map O.state drafts.old) outputs.now }
    ensures written { IfOk result (λ v. AreWritten (map O.state drafts.old)
        (map O.state drafts.new) outputs.now) }
    ensures sizes { IfOk result (λ v. v.items ≡ map length outputs.now) }
    ensures fault { IfErr result (λ e. IsFaultOf (draft_faults (map O.state drafts.old))
        (draft_faults (map O.state drafts.new)) e) }
    ensures once { draft_faults (map O.state drafts.new)
        ≤ draft_faults (map O.state drafts.old) + fails_in result }
    ensures steady { Each IsSteadyDraft (map O.state drafts.old) (map O.state drafts.new) }
{
    match write_all(alloc, drafts, outputs) {
        Ok(()) => {}
        Err(fault) => return Err(fault),
    }
    match lengths(alloc, outputs) {
        Ok(sizes) => Ok(sizes),
        Err(_) => Err(HostFault::Memory),
    }
}

/// Reads what a Run reads, computes its jobs, looks at the sizes, and writes what they make. It tells the lengths.
pub(crate) fn make_files<I: ReadPart, O: WritePart, T: Tool>(
    alloc: Global,
    plan: &Plan,
    task: TaskId,
    readings: &mut [I],
    drafts: &mut [O],
    tool: &mut T,
) -> Result<Vec<u64>, Cause>
    requires proper { IsProper plan.now }
    requires run { is_run plan.now task.0 ≡ true }
    requires many { length (map I.state readings.old) ≡ length (reads plan.now task.0) }
    requires limits { map limit_of (map O.state drafts.old)
        ≡ map (pair_limit plan.now) (writes plan.now task.0) }
    requires start { AreBegun (map I.state readings.old) }
    requires empty { AreEmpty (map O.state drafts.old) }
    ensures made { IfOk result (λ v. OfRead plan.now task.0 (map I.state readings.old)
        (AreStored T.apply plan.now task.0 (map O.state drafts.old) (map O.state drafts.new) v.items)) }
    ensures cause { IfErr result (λ c. IsRunCause T.apply plan.now task.0 (map I.state readings.old) c) }
    ensures shown { IfErr result (λ c. IsShown
        (part_faults (map I.state readings.old) (map O.state drafts.old))
        (part_faults (map I.state readings.new) (map O.state drafts.new)) (T.faults tool.old)
        (T.faults tool.new) c) }
    ensures once { part_faults (map I.state readings.new) (map O.state drafts.new)
        ≤ part_faults (map I.state readings.old) (map O.state drafts.old) + blames result }
    ensures fits { IfErr result (λ c. CauseFits plan.now task.0 c []) }
    ensures readings { Each IsSteadyReading (map I.state readings.old) (map I.state readings.new) }
    ensures drafts { Each IsSteadyDraft (map O.state drafts.old) (map O.state drafts.new) }
    ensures tool { T.faults tool.old ≤ T.faults tool.new }
    ensures runs { T.runs tool.new ≤ T.runs tool.old + length (jobs_in (kind plan.now task.0)) }
{
    let blobs = match read_all(alloc, readings) {
        Ok(blobs) => blobs,
        Err(fault) => return Err(part_cause(fault)),
    };
    let outputs = match make_outputs(alloc, plan, task, blobs, tool) {
        Ok(outputs) => outputs,
        Err(cause) => return Err(cause),
    };
    match store(alloc, drafts, &outputs) {
        Ok(sizes) => Ok(sizes),
        Err(fault) => Err(part_cause(fault)),
    }
}
