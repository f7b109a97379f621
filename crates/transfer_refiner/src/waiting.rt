//! The tasks for which tasks wait.

ghost use Rattle.std.specs.Prelude.{◌≡◌, ◌<◌, ◌^◌, ◌++◌, ◌||◌, ℕ, true, false, length, slice_get, IfOk, OnOk};
ghost use Rattle.digraph.specs.code.Digraph.{edge};
ghost use Rattle.plan_core.specs.Kinds.{task_waits};
ghost use Rattle.plan_core.specs.Numbers.{below, has};
ghost use Rattle.plan_core.specs.Words.{kind_in, pair_numbers, reads_in, task_numbers, writes_in};
ghost use Rattle.std.specs.List.{list_any};
ghost use Rattle.plan_core.specs.Words.{is_clean_kind};
ghost use Rattle.transfer_refiner.specs.code.Edges.{fan};
ghost use Rattle.transfer_refiner.specs.code.Steps.{AreParented, IsSame, writer_edges};

use crate::rows::{before, larger};
use digraph::Digraph;
use plan_core::{Task, copied, kind_copied, sorted};
use std::alloc::Global;
use values::{Items, Memory, PairId, TaskId};

/// The pairs that a task reads.
fn reads_at(tasks: &[Task], t: usize) -> &[PairId]
    ensures { pair_numbers result.now ≡ reads_in (slice_get tasks.now t) }
{
    match tasks.get(t) {
        Some(found) => found.reads.as_slice(),
        None => &[],
    }
}

/// The pairs that a task writes.
fn writes_at(tasks: &[Task], t: usize) -> &[PairId]
    ensures { pair_numbers result.now ≡ writes_in (slice_get tasks.now t) }
{
    match tasks.get(t) {
        Some(found) => found.writes.as_slice(),
        None => &[],
    }
}

fn push_pairs(edges: &mut Vec<(u32, u32)>, task: u32, pairs: &[PairId]) -> Result<(), Memory>
    ensures { OnOk result (edges.new.items ≡ edges.old.items ++ fan task (pair_numbers pairs.now)) }
{
    for pair in pairs {
        edges.push((task, pair.0))?;
    }
    Ok(())
}

#[tactic(auto, using(crate::proofs::WritersLemmas::writer_none))]
fn writer_edges(alloc: Global, tasks: &[Task]) -> Result<Vec<(u32, u32)>, Memory>
    requires few { length tasks.now < 2 ^ 32 }
    ensures { IfOk result (λ v. v.items ≡ writer_edges tasks.now (length tasks.now)) }
{
    let mut edges = Vec::new(alloc);
    for task in 0..tasks.len() {
        push_pairs(&mut edges, task as u32, writes_at(tasks, task))?;
    }
    Ok(edges)
}

/// An edge leads from each task to the pairs that it writes; there are so many pairs.
pub fn writers(alloc: Global, tasks: &[Task], pairs: usize) -> Result<Digraph, Memory>
    requires few_tasks { length tasks.now < 2 ^ 32 }
    requires few_pairs { pairs < 2 ^ 32 }
    requires in_range { (t q : ℕ) → has (writes_in (slice_get tasks.now t)) q ≡ true → q < pairs }
    ensures { IfOk result (λ g. (t q : ℕ) → edge g t q ≡ has (writes_in (slice_get tasks.now t)) q) }
{
    let edges = writer_edges(alloc, tasks)?;
    let nodes = larger(tasks.len(), pairs);
    let graph = Digraph::from_edges(alloc, nodes, &edges)?;
    Ok(graph)
}

fn push_writers(list: &mut Vec<u32>, writers: &Digraph, pairs: &[PairId]) -> Result<(), Memory>
    ensures { OnOk result ((u : ℕ)
        → has list.new.items u ≡ (has list.old.items u
        || list_any (λ (q : ℕ). edge writers.now u q) (pair_numbers pairs.now))) }
{
    for pair in pairs {
        list.extend_from_slice(before(writers, pair.0))?;
    }
    Ok(())
}

fn task_ids(alloc: Global, numbers: &[u32]) -> Result<Items<TaskId>, Memory>
    ensures { IfOk result (λ ids. task_numbers ids ≡ numbers.now) }
{
    let mut ids = Vec::new(alloc);
    for number in numbers {
        ids.push(TaskId(*number))?;
    }
    Ok(Items::new(ids))
}

fn push_stated(list: &mut Vec<u32>, stated: &Digraph, task: u32) -> Result<(), Memory>
    ensures { OnOk result ((u : ℕ)
        → has list.new.items u ≡ (has list.old.items u || edge stated.now u task)) }
{
    list.extend_from_slice(before(stated, task))?;
    Ok(())
}

fn awaited(
    alloc: Global,
    writers: &Digraph,
    stated: &Digraph,
    task: u32,
    reads: &[PairId],
) -> Result<Vec<u32>, Memory>
    ensures { IfOk result (λ v. (u : ℕ)
        → has v.items u ≡ (list_any (λ (q : ℕ). edge writers.now u q) (pair_numbers reads.now)
        || edge stated.now u task)) }
{
    let mut list = Vec::new(alloc);
    push_writers(&mut list, writers, reads)?;
    push_stated(&mut list, stated, task)?;
    Ok(list)
}

/// The tasks that write one of the pairs, and those that are stated to come before the task, in rising order.
fn parents_of(
    alloc: Global,
    writers: &Digraph,
    stated: &Digraph,
    task: u32,
    reads: &[PairId],
) -> Result<Items<TaskId>, Memory>
    ensures { IfOk result (λ us. (n : ℕ)
        → ((u : ℕ) → (list_any (λ (q : ℕ). edge writers.now u q) (pair_numbers reads.now)
        || edge stated.now u task) ≡ true → u < n)
        → task_numbers us ≡ below n (λ u. list_any (λ (q : ℕ). edge writers.now u q) (pair_numbers reads.now)
        || edge stated.now u task)) }
{
    let numbers = sorted(awaited(alloc, writers, stated, task, reads)?);
    let ids = task_ids(alloc, &numbers)?;
    Ok(ids)
}

/// The tasks for which a task waits.
fn parents_at(
    alloc: Global,
    writers: &Digraph,
    stated: &Digraph,
    tasks: &[Task],
    t: usize,
) -> Result<Items<TaskId>, Memory>
    requires few { length tasks.now < 2 ^ 32 }
    requires below { t < length tasks.now }
    requires no_cleans { (u : ℕ) → is_clean_kind (kind_in (slice_get tasks.now u)) ≡ false }
    requires writers { (u q : ℕ) → edge writers.now u q ≡ has (writes_in (slice_get tasks.now u)) q }
    requires stated { (u v : ℕ) → edge stated.now u v ≡ true → u < length tasks.now }
    ensures { IfOk result (λ us. task_numbers us
        ≡ below (length tasks.now) (λ u. task_waits (slice_get tasks.now t) (slice_get tasks.now u)
        || edge stated.now u t)) }
{
    let reads = reads_at(tasks, t);
    let ids = parents_of(alloc, writers, stated, t as u32, reads)?;
    Ok(ids)
}

fn with_its_parents(
    alloc: Global,
    writers: &Digraph,
    stated: &Digraph,
    tasks: &[Task],
    t: usize,
) -> Result<Task, Memory>
    requires few { length tasks.now < 2 ^ 32 }
    requires below { t < length tasks.now }
    requires no_cleans { (u : ℕ) → is_clean_kind (kind_in (slice_get tasks.now u)) ≡ false }
    requires writers { (u q : ℕ) → edge writers.now u q ≡ has (writes_in (slice_get tasks.now u)) q }
    requires stated { (u v : ℕ) → edge stated.now u v ≡ true → u < length tasks.now }
    ensures same { IfOk result (λ x. IsSame (slice_get tasks.now t) x) }
    ensures parents { IfOk result (λ x. task_numbers x.parents
        ≡ below (length tasks.now) (λ u. task_waits (slice_get tasks.now t) (slice_get tasks.now u)
        || edge stated.now u t)) }
{
    let parents = parents_at(alloc, writers, stated, tasks, t)?;
    let Ok(kind) = kind_copied(alloc, &tasks[t].kind) else {
        drop(parents);
        return Err(Memory);
    };
    let Ok(reads) = copied(alloc, tasks[t].reads.as_slice()) else {
        drop(kind);
        drop(parents);
        return Err(Memory);
    };
    let Ok(writes) = copied(alloc, tasks[t].writes.as_slice()) else {
        drop(reads);
        drop(kind);
        drop(parents);
        return Err(Memory);
    };
    Ok(Task {
        kind,
        reads,
        writes,
        parents,
    })
}

/// The same tasks with their parents; none is a Clean.
pub fn with_parents(
    alloc: Global,
    writers: &Digraph,
    stated: &Digraph,
    tasks: &[Task],
) -> Result<Items<Task>, Memory>
    requires few { length tasks.now < 2 ^ 32 }
    requires no_cleans { (u : ℕ) → is_clean_kind (kind_in (slice_get tasks.now u)) ≡ false }
    requires writers { (u q : ℕ) → edge writers.now u q ≡ has (writes_in (slice_get tasks.now u)) q }
    requires stated { (u v : ℕ) → edge stated.now u v ≡ true → u < length tasks.now }
    ensures { IfOk result (λ done. AreParented (λ t u. edge stated.now u t) tasks.now done
        (length tasks.now)) }
{
    let mut done = Vec::new(alloc);
    for t in 0..tasks.len() {
        done.push(with_its_parents(alloc, writers, stated, tasks, t)?)?;
    }
    Ok(Items::new(done))
}
