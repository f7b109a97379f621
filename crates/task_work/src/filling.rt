//! What a task's bytes become: its readings are read, and its drafts filled.

ghost use Rattle.std.specs.Prelude.{◌≡◌, ◌+◌, ◌≤◌, [], IfErr, IfOk, length, map, true};
ghost use Rattle.plan_core.specs.code.Proper.{IsProper};
ghost use Rattle.plan_core.specs.Words.{is_transfer, kind};
ghost use Rattle.lease_rules.specs.Legal.{CauseFits};
ghost use Rattle.task_work.specs.Computing.{jobs_in};
ghost use Rattle.task_work.specs.Filling.{AreParts, FillsTransfer, HasFilled, IsWhy};
ghost use Rattle.task_work.specs.Making.{AreBegun, AreEmpty, Each, IsShown, blames};
ghost use Rattle.outside.specs.code.Parts.{part_faults};
ghost use Rattle.task_work.specs.Pieces.{IsSteadyDraft, IsSteadyReading};

use crate::making::make_files;
use crate::moving::{delivery_digest, move_file};
use outside::{ReadPart, TaskId, Tool, WritePart};
use plan_core::Plan;
use run_record::Cause;
use std::alloc::Global;

/// What drafts hold: of a Transfer the length, and of a delivery the digest; of a Run the length of each.
#[derive(Drop)]
pub enum Filled {
    Moved(u64, Option<[u8; 32]>),
    Made(Vec<u64>),
}

/// Moves a Transfer's bytes.
fn fill_transfer<I: ReadPart, O: WritePart>(
    alloc: Global,
    plan: &Plan,
    task: TaskId,
    readings: &mut [I],
    drafts: &mut [O],
) -> Result<Filled, Cause>
    requires transfer { is_transfer plan.now task.0 ≡ true }
    requires parts { AreParts plan.now task.0 (kind plan.now task.0) (map I.state readings.old)
        (map O.state drafts.old) }
    requires start { AreBegun (map I.state readings.old) }
    requires empty { AreEmpty (map O.state drafts.old) }
    ensures fills { FillsTransfer plan.now task.0 (map I.state readings.old) (map I.state readings.new)
        (map O.state drafts.old) (map O.state drafts.new) result }
    ensures once { part_faults (map I.state readings.new) (map O.state drafts.new)
        ≤ part_faults (map I.state readings.old) (map O.state drafts.old) + blames result }
    ensures readings { Each IsSteadyReading (map I.state readings.old) (map I.state readings.new) }
    ensures drafts { Each IsSteadyDraft (map O.state drafts.old) (map O.state drafts.new) }
{
    match move_file(alloc, plan, task, &mut readings[0], &mut drafts[0]) {
        Ok(moved) => Ok(Filled::Moved(moved.length, delivery_digest(plan, task, moved.digest))),
        Err(cause) => Err(cause),
    }
}

/// Moves a Transfer's bytes, or reads what a Run reads and writes what its jobs make.
pub fn fill<I: ReadPart, O: WritePart, T: Tool>(
    alloc: Global,
    plan: &Plan,
    task: TaskId,
    readings: &mut [I],
    drafts: &mut [O],
    tool: &mut T,
) -> Result<Filled, Cause>
    requires proper { IsProper plan.now }
    requires parts { AreParts plan.now task.0 (kind plan.now task.0) (map I.state readings.old)
        (map O.state drafts.old) }
    requires start { AreBegun (map I.state readings.old) }
    requires empty { AreEmpty (map O.state drafts.old) }
    ensures filled { IfOk result (λ f. HasFilled T.apply plan.now task.0 (map I.state readings.old)
        (map O.state drafts.old) (map O.state drafts.new) f) }
    ensures why { IfErr result (λ c. IsWhy T.apply plan.now task.0 (map I.state readings.old)
        (map O.state drafts.old) (map O.state drafts.new) c) }
    ensures shown { IfErr result (λ c. IsShown
        (part_faults (map I.state readings.old) (map O.state drafts.old))
        (part_faults (map I.state readings.new) (map O.state drafts.new)) (T.faults tool.old)
        (T.faults tool.new) c) }
    ensures once { part_faults (map I.state readings.new) (map O.state drafts.new)
        ≤ part_faults (map I.state readings.old) (map O.state drafts.old) + blames result }
    ensures fits { IfErr result (λ c. CauseFits plan.now task.0 c []) }
    ensures readings { Each IsSteadyReading (map I.state readings.old) (map I.state readings.new) }
    ensures drafts { Each IsSteadyDraft (map O.state drafts.old) (map O.state drafts.new) }
    ensures tool { T.faults tool.old ≤ T.faults tool.new }
    ensures runs { T.runs tool.new ≤ T.runs tool.old + length (jobs_in (kind plan.now task.0)) }
{
    if plan.is_transfer(task) {
        return fill_transfer(alloc, plan, task, readings, drafts);
    }
    match make_files(alloc, plan, task, readings, drafts, tool) {
        Ok(sizes) => Ok(Filled::Made(sizes)),
        Err(cause) => Err(cause),
    }
}
