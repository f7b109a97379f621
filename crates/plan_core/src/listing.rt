//! Graphs of tasks and what is listed of them.

ghost use Rattle.std.specs.Prelude.{◌≡◌, ◌<◌, ◌^◌, ◌∷◌, [], ℕ, true, length, Some, slice_get, IfOk};
ghost use Rattle.std.specs.List.{flat_map};
ghost use Rattle.digraph.specs.code.Adjacency.{lists_of};
ghost use Rattle.digraph.specs.Adjacency.{neighbours};
ghost use Rattle.digraph.specs.code.Digraph.{count, edge};
ghost use Rattle.plan_core.specs.code.Listing.{awaited, cleaned, delivered, listed, nodes, swept};
ghost use Rattle.plan_core.specs.Numbers.{has};
ghost use Rattle.plan_core.specs.Words.{kind, pair_numbers, task_numbers};

use crate::plan::{Plan, Target, Task, TaskKind};
use digraph::Digraph;
use std::alloc::Global;
use values::{Memory, PairId, TaskId};

/// What is listed of a task.
#[derive(Clone, Copy)]
pub enum Listing {
    Reads,
    Writes,
    Cleaned,
    Delivered,
    Parents,
}

fn pairs_listed(alloc: Global, pairs: &[PairId]) -> Result<Vec<u32>, Memory>
    ensures { IfOk result (λ v. v.items ≡ pair_numbers pairs.now) }
{
    let numbers: Vec<u32> = pairs.iter().map(|pair| pair.0).collect(alloc)?;
    Ok(numbers)
}

pub fn tasks_listed(alloc: Global, tasks: &[TaskId]) -> Result<Vec<u32>, Memory>
    ensures { IfOk result (λ v. v.items ≡ task_numbers tasks.now) }
{
    let numbers: Vec<u32> = tasks.iter().map(|task| task.0).collect(alloc)?;
    Ok(numbers)
}

fn one(alloc: Global, number: u32) -> Result<Vec<u32>, Memory>
    ensures { IfOk result (λ v. v.items ≡ number ∷ []) }
{
    let mut numbers = Vec::new(alloc);
    numbers.push(number)?;
    Ok(numbers)
}

fn cleaned(alloc: Global, plan: &Plan, task: TaskId) -> Result<Vec<u32>, Memory>
    ensures { IfOk result (λ v. v.items ≡ cleaned (kind plan.now task.0)) }
{
    match plan.kind(task) {
        Some(TaskKind::Clean { pair }) => one(alloc, pair.0),
        _ => Ok(Vec::new(alloc)),
    }
}

fn delivered(alloc: Global, plan: &Plan, task: TaskId) -> Result<Vec<u32>, Memory>
    ensures { IfOk result (λ v. v.items ≡ delivered (kind plan.now task.0)) }
{
    match plan.kind(task) {
        Some(
            TaskKind::Transfer {
                file,
                to: Target::Delivery,
                ..
            },
        ) => one(alloc, file.0),
        _ => Ok(Vec::new(alloc)),
    }
}

fn listed(alloc: Global, plan: &Plan, listing: Listing, task: TaskId) -> Result<Vec<u32>, Memory>
    ensures { IfOk result (λ v. v.items ≡ listed plan.now listing task.0) }
{
    match listing {
        Listing::Reads => pairs_listed(alloc, plan.reads(task)),
        Listing::Writes => pairs_listed(alloc, plan.writes(task)),
        Listing::Cleaned => cleaned(alloc, plan, task),
        Listing::Delivered => delivered(alloc, plan, task),
        Listing::Parents => tasks_listed(alloc, plan.parents(task)),
    }
}

fn nodes(plan: &Plan) -> usize
    ensures { result ≡ nodes plan.now }
{
    let files = plan.files.as_slice().len();
    let pairs = plan.pairs.as_slice().len();
    plan.tasks.as_slice().len().max(pairs.max(files))
}

fn lists(
    alloc: Global,
    plan: &Plan,
    listing: Listing,
    count: usize,
) -> Result<Vec<Vec<u32>>, Memory>
    requires few { count < 2 ^ 32 }
    ensures long { IfOk result (λ v. length v.items ≡ count) }
    ensures lists { IfOk result (λ v. (t : ℕ) → t < count
        → neighbours (lists_of v.items) t ≡ listed plan.now listing t) }
{
    let mut all = Vec::new(alloc);
    for t in 0..count {
        let numbers = listed(alloc, plan, listing, TaskId(t as u32))?;
        all.push(numbers)?;
    }
    Ok(all)
}

/// The graph in which an edge leads to each task from each number that is listed of it.
pub fn graph(alloc: Global, plan: &Plan, listing: Listing) -> Result<Digraph, Memory>
    requires few { nodes plan.now < 2 ^ 32 }
    requires in_range { (t x : ℕ) → has (listed plan.now listing t) x ≡ true → x < nodes plan.now }
    ensures count { IfOk result (λ g. count g ≡ nodes plan.now) }
    ensures edges { IfOk result (λ g. (x t : ℕ) → edge g x t ≡ has (listed plan.now listing t) x) }
{
    let all = lists(alloc, plan, listing, nodes(plan))?;
    let made = Digraph::new(alloc, &all)?;
    Ok(made)
}

/// A node's list; empty where there is no such node.
pub fn neighbours(lists: &[Vec<u32>], node: u32) -> &[u32]
    ensures { result.now ≡ neighbours (lists_of lists.now) node }
{
    match lists.get(node as usize) {
        Some(found) => found.as_slice(),
        None => &[],
    }
}

fn swept(
    alloc: Global,
    kind: &TaskKind,
    writers: &[Vec<u32>],
    readers: &[Vec<u32>],
) -> Result<Vec<u32>, Memory>
    ensures { IfOk result (λ v. v.items ≡ swept (lists_of writers.now) (lists_of readers.now)
        (Some kind.now)) }
{
    let mut tasks = Vec::new(alloc);
    if let TaskKind::Clean { pair } = kind {
        tasks.extend_from_slice(neighbours(writers, pair.0))?;
        tasks.extend_from_slice(neighbours(readers, pair.0))?;
    }
    Ok(tasks)
}

fn writers_of(alloc: Global, pairs: &[PairId], writers: &[Vec<u32>]) -> Result<Vec<u32>, Memory>
    ensures { IfOk result (λ v. v.items ≡ flat_map (neighbours (lists_of writers.now))
        (pair_numbers pairs.now)) }
{
    let mut tasks = Vec::new(alloc);
    for pair in pairs {
        tasks.extend_from_slice(neighbours(writers, pair.0))?;
    }
    Ok(tasks)
}

/// The tasks that a task waits for, given who writes and who reads each pair.
fn awaited(
    alloc: Global,
    task: &Task,
    writers: &[Vec<u32>],
    readers: &[Vec<u32>],
) -> Result<Vec<u32>, Memory>
    ensures { IfOk result (λ v. v.items ≡ awaited (lists_of writers.now) (lists_of readers.now)
        (Some task.now)) }
{
    let mut tasks = writers_of(alloc, task.reads.as_slice(), writers)?;
    let others = swept(alloc, &task.kind, writers, readers)?;
    tasks.extend_from_slice(&others)?;
    Ok(tasks)
}

fn awaited_at(
    alloc: Global,
    tasks: &[Task],
    task: usize,
    writers: &[Vec<u32>],
    readers: &[Vec<u32>],
) -> Result<Vec<u32>, Memory>
    ensures { IfOk result (λ v. v.items ≡ awaited (lists_of writers.now) (lists_of readers.now)
        (slice_get tasks.now task)) }
{
    match tasks.get(task) {
        Some(found) => awaited(alloc, found, writers, readers),
        None => Ok(Vec::new(alloc)),
    }
}

/// For each task the tasks that it waits for.
pub fn awaited_lists(
    alloc: Global,
    plan: &Plan,
    writers: &[Vec<u32>],
    readers: &[Vec<u32>],
) -> Result<Vec<Vec<u32>>, Memory>
    ensures long { IfOk result (λ v. length v.items ≡ nodes plan.now) }
    ensures lists { IfOk result (λ v. (t : ℕ) → t < nodes plan.now
        → neighbours (lists_of v.items) t ≡ awaited (lists_of writers.now) (lists_of readers.now)
        (slice_get plan.now.tasks t)) }
{
    let mut all = Vec::new(alloc);
    let tasks = plan.tasks.as_slice();
    for t in 0..nodes(plan) {
        let found = awaited_at(alloc, tasks, t, writers, readers)?;
        all.push(found)?;
    }
    Ok(all)
}
