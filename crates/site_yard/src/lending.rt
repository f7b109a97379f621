//! What a task has outside the lock: its readings opened, its drafts made.

ghost use Rattle.std.specs.Prelude.{◌≡◌, ◌≤◌, ◌<◌, [], IfErr, IfOk, length, map, vec_capacity};
ghost use Rattle.outside.specs.code.Counts.{IsLater};
ghost use Rattle.plan_core.specs.Words.{kind, pair_numbers, reads, writes};
ghost use Rattle.site_yard.specs.code.Loan.{Aim, AreReadings, delivery_target, fresh_at, pair_target, targets};
ghost use Rattle.site_yard.specs.code.Failures.{AreMore};
ghost use Rattle.site_yard.specs.code.Lending.{MakesDraft, MakesDrafts, OpensPair, OpensPairs, OpensReadings, RefusesLoan, count_parts};
ghost use Rattle.outside.specs.code.Parts.{draft_faults, reading_faults};

use crate::moving::{replica_cause, scratch_cause};
use crate::names::{declared_size, file_name, pair_file_name, pair_limit, pair_site_name};
use crate::returning::{discard_all, finish_all};
use outside::{FileId, Host, Memory, PairId, Place, TaskId, Text};
use plan_core::{Plan, Source, Target, TaskKind};
use run_record::Cause;
use std::alloc::Global;

/// What a task reads and writes, outside the lock: one reading for each of its reads, in order, of a Transfer from a pfn
/// the one of the replica; one draft for each of its writes, in order, of a delivery the one of the delivery. It isn't
/// `Drop`, since its parts aren't: who has one has to settle or to abandon it.
pub struct Loan<H: Host> {
    pub readings: Vec<H::Reading>,
    pub drafts: Vec<H::Draft>,
}

fn open_pair<H: Host>(
    plan: &Plan,
    host: &mut H,
    alloc: Global,
    pair: PairId,
) -> Result<H::Reading, Cause>
    ensures answer { OpensPair H.Reading.state plan.now pair.0 (H.told host.old) (H.counts host.old)
        (H.counts host.new) result }
    ensures told { H.told host.new ≡ H.told host.old }
    ensures marked { H.marked host.new ≡ H.marked host.old }
    ensures later { IsLater (H.counts host.old) (H.counts host.new) }
{
    let limit = pair_limit(plan, pair);
    let site = pair_site_name(plan, pair);
    match host.open_scratch(alloc, site, pair_file_name(plan, pair), limit) {
        Ok(reading) => Ok(reading),
        Err(fault) => Err(scratch_cause(fault)),
    }
}

fn open_pairs<H: Host>(
    plan: &Plan,
    host: &mut H,
    alloc: Global,
    pairs: &[PairId],
    readings: &mut Vec<H::Reading>,
) -> Result<(), Cause>
    requires none { readings.old.items ≡ [] }
    requires room { length pairs.now ≤ vec_capacity readings.old }
    ensures answer { OpensPairs plan.now (pair_numbers pairs.now) (H.told host.old) (H.counts host.old)
        (H.counts host.new) (map H.Reading.state readings.new.items) result }
    ensures whole { reading_faults (map H.Reading.state readings.new.items) ≡ 0 }
    ensures told { H.told host.new ≡ H.told host.old }
    ensures marked { H.marked host.new ≡ H.marked host.old }
    ensures later { IsLater (H.counts host.old) (H.counts host.new) }
{
    for k in 0..pairs.len() {
        match open_pair(plan, host, alloc, pairs[k]) {
            Ok(reading) => readings.push_reserved(reading),
            Err(cause) => return Err(cause),
        }
    }
    Ok(())
}

/// Opens what a task reads.
pub(crate) fn open_readings<H: Host>(
    plan: &Plan,
    host: &mut H,
    alloc: Global,
    task: TaskId,
    readings: &mut Vec<H::Reading>,
) -> Result<(), Cause>
    requires none { readings.old.items ≡ [] }
    requires room { length (reads plan.now task.0) < vec_capacity readings.old }
    ensures answer { OpensReadings plan.now (kind plan.now task.0) (reads plan.now task.0) (H.told host.old)
        (H.counts host.old) (H.counts host.new) (map H.Reading.state readings.new.items) result }
    ensures whole { reading_faults (map H.Reading.state readings.new.items) ≡ 0 }
    ensures told { H.told host.new ≡ H.told host.old }
    ensures marked { H.marked host.new ≡ H.marked host.old }
    ensures later { IsLater (H.counts host.old) (H.counts host.new) }
{
    match plan.kind(task) {
        Some(
            TaskKind::Transfer {
                file,
                from: Source::Pfn(pfn),
                ..
            },
        ) => match host.open_replica(alloc, pfn.as_str(), declared_size(plan, *file)) {
            Ok(reading) => {
                readings.push_reserved(reading);
                Ok(())
            }
            Err(fault) => Err(replica_cause(fault)),
        },
        _ => open_pairs(plan, host, alloc, plan.reads(task), readings),
    }
}

/// Where a pair's file is to stand.
fn pair_place(alloc: Global, plan: &Plan, pair: PairId) -> Result<Place, Memory>
    ensures { IfOk result (λ x. x ≡ (pair_target plan.now pair.0).place) }
{
    let site = Text::copy_of(alloc, pair_site_name(plan, pair))?;
    let name = Text::copy_of(alloc, pair_file_name(plan, pair))?;
    Ok(Place::Scratch(site, name))
}

/// Makes a draft of a file that is to stand at a place.
fn draft_at<H: Host>(
    host: &mut H,
    alloc: Global,
    place: &Place,
    limit: u64,
) -> Result<H::Draft, Cause>
    ensures answer { (x : Aim) → x.place ≡ place.now → x.limit ≡ limit → MakesDraft H.Draft.state x
        (H.told host.old) (H.counts host.old) (H.counts host.new) result }
    ensures told { H.told host.new ≡ H.told host.old }
    ensures marked { H.marked host.new ≡ H.marked host.old }
    ensures later { IsLater (H.counts host.old) (H.counts host.new) }
{
    match host.draft(alloc, place, limit) {
        Ok(draft) => Ok(draft),
        Err(fault) => Err(scratch_cause(fault)),
    }
}

fn draft_pair<H: Host>(
    plan: &Plan,
    host: &mut H,
    alloc: Global,
    pair: PairId,
) -> Result<H::Draft, Cause>
    ensures answer { MakesDraft H.Draft.state (pair_target plan.now pair.0) (H.told host.old)
        (H.counts host.old) (H.counts host.new) result }
    ensures told { H.told host.new ≡ H.told host.old }
    ensures marked { H.marked host.new ≡ H.marked host.old }
    ensures later { IsLater (H.counts host.old) (H.counts host.new) }
{
    let Ok(place) = pair_place(alloc, plan, pair) else {
        return Err(Cause::Memory);
    };
    draft_at(host, alloc, &place, pair_limit(plan, pair))
}

fn draft_pairs<H: Host>(
    plan: &Plan,
    host: &mut H,
    alloc: Global,
    pairs: &[PairId],
    drafts: &mut Vec<H::Draft>,
) -> Result<(), Cause>
    requires none { drafts.old.items ≡ [] }
    requires room { length pairs.now ≤ vec_capacity drafts.old }
    ensures answer { MakesDrafts (map (pair_target plan.now) (pair_numbers pairs.now)) (H.told host.old)
        (H.counts host.old) (H.counts host.new) (map H.Draft.state drafts.new.items) result }
    ensures whole { draft_faults (map H.Draft.state drafts.new.items) ≡ 0 }
    ensures told { H.told host.new ≡ H.told host.old }
    ensures marked { H.marked host.new ≡ H.marked host.old }
    ensures later { IsLater (H.counts host.old) (H.counts host.new) }
{
    for k in 0..pairs.len() {
        match draft_pair(plan, host, alloc, pairs[k]) {
            Ok(draft) => drafts.push_reserved(draft),
            Err(cause) => return Err(cause),
        }
    }
    Ok(())
}

/// Makes the draft of a delivery.
fn draft_delivery<H: Host>(
    plan: &Plan,
    host: &mut H,
    alloc: Global,
    file: FileId,
) -> Result<H::Draft, Cause>
    ensures answer { MakesDraft H.Draft.state (delivery_target plan.now file.0) (H.told host.old)
        (H.counts host.old) (H.counts host.new) result }
    ensures told { H.told host.new ≡ H.told host.old }
    ensures marked { H.marked host.new ≡ H.marked host.old }
    ensures later { IsLater (H.counts host.old) (H.counts host.new) }
{
    let Ok(name) = Text::copy_of(alloc, file_name(plan, file)) else {
        return Err(Cause::Memory);
    };
    draft_at(
        host,
        alloc,
        &Place::Delivery(name),
        declared_size(plan, file),
    )
}

/// Makes the drafts of what a task writes, of a delivery the one of the delivery.
pub(crate) fn make_drafts<H: Host>(
    plan: &Plan,
    host: &mut H,
    alloc: Global,
    task: TaskId,
    drafts: &mut Vec<H::Draft>,
) -> Result<(), Cause>
    requires none { drafts.old.items ≡ [] }
    requires room { length (writes plan.now task.0) < vec_capacity drafts.old }
    ensures answer { MakesDrafts (targets plan.now task.0) (H.told host.old) (H.counts host.old)
        (H.counts host.new) (map H.Draft.state drafts.new.items) result }
    ensures whole { draft_faults (map H.Draft.state drafts.new.items) ≡ 0 }
    ensures told { H.told host.new ≡ H.told host.old }
    ensures marked { H.marked host.new ≡ H.marked host.old }
    ensures later { IsLater (H.counts host.old) (H.counts host.new) }
{
    match plan.kind(task) {
        Some(
            TaskKind::Transfer {
                file,
                to: Target::Delivery,
                ..
            },
        ) => match draft_delivery(plan, host, alloc, *file) {
            Ok(draft) => {
                drafts.push_reserved(draft);
                Ok(())
            }
            Err(cause) => Err(cause),
        },
        _ => draft_pairs(plan, host, alloc, plan.writes(task), drafts),
    }
}

/// Opens the readings and makes the drafts of a task. After a refusal it gives back what it had opened.
pub(crate) fn make_loan<H: Host>(
    plan: &Plan,
    host: &mut H,
    alloc: Global,
    task: TaskId,
) -> Result<Loan<H>, Cause>
    ensures readings { IfOk result (λ l. AreReadings plan.now (kind plan.now task.0) (reads plan.now task.0)
        (H.told host.old) (map H.Reading.state l.readings.items)) }
    ensures drafts { IfOk result (λ l. map H.Draft.state l.drafts.items
        ≡ map (fresh_at (H.told host.old)) (targets plan.now task.0)) }
    ensures asked { IfOk result (λ l. AreMore (count_parts plan.now task.0) 0 0 (H.counts host.old)
        (H.counts host.new)) }
    ensures refused { IfErr result (λ c. RefusesLoan plan.now task.0 (H.told host.old) (H.counts host.old)
        (H.counts host.new) c) }
    ensures told { H.told host.new ≡ H.told host.old }
    ensures marked { H.marked host.new ≡ H.marked host.old }
    ensures later { IsLater (H.counts host.old) (H.counts host.new) }
{
    let Ok(mut readings) = Vec::with_capacity(alloc, plan.reads(task).len() + 1) else {
        return Err(Cause::Memory);
    };
    let Ok(mut drafts) = Vec::with_capacity(alloc, plan.writes(task).len() + 1) else {
        readings.destroy_empty();
        return Err(Cause::Memory);
    };
    match open_readings(plan, host, alloc, task, &mut readings) {
        Ok(()) => {}
        Err(cause) => {
            finish_all(host, readings);
            drafts.destroy_empty();
            return Err(cause);
        }
    }
    match make_drafts(plan, host, alloc, task, &mut drafts) {
        Ok(()) => Ok(Loan { readings, drafts }),
        Err(cause) => {
            finish_all(host, readings);
            discard_all(host, drafts);
            Err(cause)
        }
    }
}
