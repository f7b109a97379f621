//! The bytes of a Transfer, and their digest.

ghost use Rattle.std.specs.Prelude.{◌≡◌, ◌+◌, ◌≤◌, true};
ghost use Rattle.lease_rules.specs.Legal.{checksum};
ghost use Rattle.plan_core.specs.Words.{is_transfer, kind};
ghost use Rattle.storage_simulation.specs.Goods.{is_delivery};
ghost use Rattle.task_work.specs.Making.{blames};
ghost use Rattle.task_work.specs.Moving.{Agrees, IsAgreed, Moves, digest_of, part_cause};
ghost use Rattle.task_work.specs.Pieces.{IsSteadyDraft, IsSteadyReading};

use crate::pieces::{Moved, move_pieces};
use outside::{FileId, HostFault, ReadPart, TaskId, WritePart};
use plan_core::{Plan, Source, TaskKind};
use run_record::Cause;
use std::alloc::Global;
use storage_simulation::is_delivery;

/// Why a task failed, of a failed call of a part.
pub(crate) fn part_cause(fault: HostFault) -> Cause
    ensures { result ≡ part_cause fault }
{
    match fault {
        HostFault::Memory => Cause::Memory,
        _ => Cause::HostFailed,
    }
}

/// The checksum that is registered for a file.
#[tactic(auto, unfolding(lease_rules::specs::Legal::checksum))]
fn checksum(plan: &Plan, file: FileId) -> Option<[u8; 32]>
    ensures { result ≡ checksum plan.now file.0 }
{
    match plan.files.as_slice().get(file.0 as usize) {
        Some(found) => found.checksum,
        None => None,
    }
}

/// Compares a digest with the checksum that is registered for a file.
fn agree(plan: &Plan, file: FileId, digest: [u8; 32]) -> Result<(), Cause>
    ensures { IsAgreed (checksum plan.now file.0) digest result }
{
    let Some(wanted) = checksum(plan, file) else {
        return Ok(());
    };
    if digest == wanted {
        return Ok(());
    }
    Err(Cause::Checksum(digest))
}

/// The same for a Transfer's file, if it comes from a replica.
fn agree_for(plan: &Plan, task: TaskId, digest: [u8; 32]) -> Result<(), Cause>
    ensures { Agrees plan.now (kind plan.now task.0) digest result }
{
    match plan.kind(task) {
        Some(TaskKind::Transfer { file, from, .. }) => match from {
            Source::Pfn(_) => agree(plan, *file, digest),
            Source::Site(_) => Ok(()),
        },
        _ => Ok(()),
    }
}

/// The digest of a delivery.
pub(crate) fn delivery_digest(plan: &Plan, task: TaskId, digest: [u8; 32]) -> Option<[u8; 32]>
    ensures { result ≡ digest_of (is_delivery plan.now task.0) digest }
{
    if is_delivery(plan, task) {
        return Some(digest);
    }
    None
}

/// Moves a Transfer's bytes in pieces, and compares their digest with the registered one.
pub(crate) fn move_file<I: ReadPart, O: WritePart>(
    alloc: Global,
    plan: &Plan,
    task: TaskId,
    reading: &mut I,
    draft: &mut O,
) -> Result<Moved, Cause>
    requires start { (I.state reading.old).given ≡ 0 }
    requires empty { (O.state draft.old).size ≡ 0 }
    requires limit { (I.state reading.old).size ≤ (O.state draft.old).limit }
    ensures once { (I.state reading.new).faults + (O.state draft.new).faults
        ≤ (I.state reading.old).faults + (O.state draft.old).faults + blames result }
    ensures moves { Moves plan.now task.0 (I.state reading.old) (I.state reading.new) (O.state draft.old)
        (O.state draft.new) result }
    ensures reading { IsSteadyReading (I.state reading.old) (I.state reading.new) }
    ensures draft { IsSteadyDraft (O.state draft.old) (O.state draft.new) }
{
    let moved = match move_pieces(alloc, reading, draft) {
        Ok(moved) => moved,
        Err(fault) => return Err(part_cause(fault)),
    };
    match agree_for(plan, task, moved.digest) {
        Ok(()) => Ok(moved),
        Err(cause) => Err(cause),
    }
}
