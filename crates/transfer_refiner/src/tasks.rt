//! The tasks of a plan with what they read and write.

ghost use Rattle.std.specs.Prelude.{◌≡◌, ◌<◌, ◌^◌, Some, map, length, slice_get, IfOk, All};
ghost use Rattle.plan_core.specs.declared.plan.Task.{Task as DeclaredTask};
ghost use Rattle.plan_core.specs.Kinds.{kind_reads, kind_writes, on_pair};
ghost use Rattle.plan_core.specs.Numbers.{below};
ghost use Rattle.plan_core.specs.Words.{pair_numbers};
ghost use Rattle.transfer_refiner.specs.code.Places.{AreOnce};
ghost use Rattle.transfer_refiner.specs.code.Steps.{IsListed};

use crate::places::{Places, pairs_at};
use plan_core::{Pair, PlanJob, Task, TaskKind, files_read, files_written, kind_copied};
use std::alloc::Global;
use values::{Items, Memory, PairId};

/// The pairs of the files that a task of a kind reads.
fn reads_of(
    alloc: Global,
    jobs: &[PlanJob],
    places: &Places<'_>,
    kind: &TaskKind,
) -> Result<Items<PairId>, Memory>
    requires once { AreOnce places.now }
    ensures { IfOk result (λ ids. pair_numbers ids
        ≡ below (length places.now) (λ q. on_pair (kind_reads jobs.now (Some kind.now))
        (slice_get places.now q))) }
{
    let files = files_read(alloc, jobs, kind)?;
    let pairs = pairs_at(alloc, places, &files);
    drop(files);
    pairs
}

/// The pairs of the files that a task of a kind writes.
fn writes_of(
    alloc: Global,
    jobs: &[PlanJob],
    places: &Places<'_>,
    kind: &TaskKind,
) -> Result<Items<PairId>, Memory>
    requires once { AreOnce places.now }
    ensures { IfOk result (λ ids. pair_numbers ids
        ≡ below (length places.now) (λ q. on_pair (kind_writes jobs.now (Some kind.now))
        (slice_get places.now q))) }
{
    let files = files_written(alloc, jobs, kind)?;
    let pairs = pairs_at(alloc, places, &files);
    drop(files);
    pairs
}

/// A task of a kind, without parents.
fn task_of(
    alloc: Global,
    jobs: &[PlanJob],
    places: &Places<'_>,
    kind: &TaskKind,
) -> Result<Task, Memory>
    requires once { AreOnce places.now }
    ensures kind { IfOk result (λ t. t.kind ≡ kind.now) }
    ensures listed { IfOk result (λ t. IsListed jobs.now places.now t) }
{
    let reads = reads_of(alloc, jobs, places, kind)?;
    let Ok(writes) = writes_of(alloc, jobs, places, kind) else {
        drop(reads);
        return Err(Memory);
    };
    let Ok(kind) = kind_copied(alloc, kind) else {
        drop(writes);
        drop(reads);
        return Err(Memory);
    };
    Ok(Task {
        kind,
        reads,
        writes,
        parents: Items::new(Vec::new(alloc)),
    })
}

/// Tasks of these kinds, with the pairs at these places, without parents.
fn tasks_at(
    alloc: Global,
    jobs: &[PlanJob],
    places: &Places<'_>,
    given: &[TaskKind],
) -> Result<Vec<Task>, Memory>
    requires once { AreOnce places.now }
    ensures kinds { IfOk result (λ tasks. map (λ (t : DeclaredTask). t.kind) tasks.items ≡ given.now) }
    ensures listed { IfOk result (λ tasks. All (IsListed jobs.now places.now) tasks.items) }
{
    let mut tasks = Vec::new(alloc);
    for kind in given {
        tasks.push(task_of(alloc, jobs, places, kind)?)?;
    }
    Ok(tasks)
}

/// Tasks of these kinds over these pairs, without parents.
pub fn tasks_of(
    alloc: Global,
    jobs: &[PlanJob],
    pairs: &[Pair],
    given: &[TaskKind],
) -> Result<Vec<Task>, Memory>
    requires few { length pairs.now < 2 ^ 32 }
    requires once { AreOnce pairs.now }
    ensures kinds { IfOk result (λ tasks. map (λ (t : DeclaredTask). t.kind) tasks.items ≡ given.now) }
    ensures listed { IfOk result (λ tasks. All (IsListed jobs.now pairs.now) tasks.items) }
{
    let places = Places::new(alloc, pairs)?;
    let tasks = tasks_at(alloc, jobs, &places, given);
    drop(places);
    tasks
}
