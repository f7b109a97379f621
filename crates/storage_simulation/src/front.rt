//! The front of an order: the tasks that are placed, and what follows from them.

ghost use Rattle.std.specs.Prelude.{◌≡◌, ◌≤◌, ◌<◌, ◌^◌, ℕ, [], false, true, get_or, length, replicate, IfOk};
ghost use Rattle.digraph.specs.code.Adjacency.{lists_of};
ghost use Rattle.digraph.specs.Adjacency.{neighbours};
ghost use Rattle.digraph.specs.code.Digraph.{count, edge};
ghost use Rattle.plan_core.specs.code.Numbers.{RisesFrom};
ghost use Rattle.plan_core.specs.Numbers.{has};
ghost use Rattle.plan_core.specs.code.Proper.{IsProper};
ghost use Rattle.plan_core.specs.Words.{count_tasks, parents, task_numbers};
ghost use Rattle.storage_simulation.specs.code.Front.{IsFrontFor};
ghost use Rattle.storage_simulation.specs.code.Goods.{IsWithinLimits};
ghost use Rattle.storage_simulation.specs.Goods.{places};

use crate::goods::places;
use digraph::Digraph;
use plan_core::{Plan, parents_come_before};
use std::alloc::Global;
use values::{Memory, TaskId};

/// The tasks that are placed, which tasks wait for which, and what follows for each task and place.
#[derive(Drop)]
pub struct Front {
    pub(crate) placed: Vec<TaskId>,
    pub(crate) graph: Digraph,
    pub(crate) done: Vec<bool>,
    pub(crate) missing: Vec<u32>,
    pub(crate) used: Vec<u64>,
    pub(crate) peaks: Vec<u64>,
}

fn numbers_of(alloc: Global, tasks: &[TaskId]) -> Result<Vec<u32>, Memory>
    ensures { IfOk result (λ v. v.items ≡ task_numbers tasks.now) }
{
    let numbers: Vec<u32> = tasks.iter().map(|task| task.0).collect(alloc)?;
    Ok(numbers)
}

/// The parents of each task.
fn parent_lists(alloc: Global, plan: &Plan) -> Result<Vec<Vec<u32>>, Memory>
    requires few { count_tasks plan.now < 2 ^ 32 }
    ensures long { IfOk result (λ v. length v.items ≡ count_tasks plan.now) }
    ensures each { IfOk result (λ v. (t : ℕ) → t < count_tasks plan.now
        → neighbours (lists_of v.items) t ≡ parents plan.now t) }
{
    let mut lists = Vec::new(alloc);
    for task in 0..plan.tasks.as_slice().len() {
        lists.push(numbers_of(alloc, plan.parents(TaskId(task as u32)))?)?;
    }
    Ok(lists)
}

/// The graph that leads from each parent to its children.
pub fn parent_graph(alloc: Global, plan: &Plan) -> Result<Digraph, Memory>
    requires proper { IsProper plan.now }
    ensures nodes { IfOk result (λ g. count g ≡ count_tasks plan.now) }
    ensures edges { IfOk result (λ g. (u t : ℕ) → edge g u t ≡ has (parents plan.now t) u) }
{
    parents_come_before();
    let lists = parent_lists(alloc, plan)?;
    let graph = Digraph::new(alloc, &lists)?;
    Ok(graph)
}

fn list_at(lists: &[Vec<u32>], at: u32) -> &[u32]
    ensures { result.now ≡ neighbours (lists_of lists.now) at }
{
    match lists.get(at as usize) {
        Some(found) => found,
        None => &[],
    }
}

/// The tasks to which an edge leads from a task.
pub fn children_of(graph: &Digraph, task: TaskId) -> &[u32]
    ensures rises { RisesFrom 0 result.now }
    ensures same { (c : ℕ) → has result.now c ≡ edge graph.now task.0 c }
    ensures in_range { (c : ℕ) → has result.now c ≡ true → c < count graph.now }
{
    list_at(graph.successors(), task.0)
}

impl Front {
    /// A front of the orders of a plan.
    pub(crate) fn new(alloc: Global, plan: &Plan) -> Result<Front, Memory>
        requires proper { IsProper plan.now }
        requires limits { IsWithinLimits plan.now }
        ensures made_for { IfOk result (λ b. IsFrontFor plan.now b) }
        ensures empty { IfOk result (λ b. b.placed.items ≡ []) }
    {
        let tasks = plan.tasks.as_slice().len();
        Ok(Front {
            placed: Vec::with_capacity(alloc, tasks)?,
            graph: parent_graph(alloc, plan)?,
            done: vec![in alloc; false; tasks]?,
            missing: vec![in alloc; 0; tasks]?,
            used: vec![in alloc; 0; places(plan)]?,
            peaks: vec![in alloc; 0; places(plan)]?,
        })
    }

    /// Whether a task is placed, runs or has ended.
    pub(crate) fn is_done(&self, task: u32) -> bool
        ensures { result ≡ get_or self.now.done.items task true }
    {
        match self.done.get(task as usize) {
            Some(done) => *done,
            None => true,
        }
    }

    /// How many parents of a task are still to be placed.
    pub(crate) fn missing(&self, task: u32) -> u32
        ensures { result ≡ get_or self.now.missing.items task 0 }
    {
        match self.missing.get(task as usize) {
            Some(count) => *count,
            None => 0,
        }
    }

    /// What a place holds.
    pub(crate) fn used(&self, place: u32) -> u64
        ensures { result ≡ get_or self.now.used.items place 0 }
    {
        match self.used.get(place as usize) {
            Some(used) => *used,
            None => 0,
        }
    }
}
