//! Which tasks write or read each pair.

ghost use Rattle.std.specs.Prelude.{◌≡◌, ◌<◌, ◌^◌, ◌++◌, ℕ, length, max, IfOk, OnOk};
ghost use Rattle.digraph.specs.code.Adjacency.{lists_of};
ghost use Rattle.digraph.specs.Adjacency.{neighbours};
ghost use Rattle.digraph.specs.code.Digraph.{count, edge};
ghost use Rattle.plan_core.specs.code.Proper.{IsProper};
ghost use Rattle.plan_core.specs.Words.{count_pairs, count_tasks, pair_numbers};
ghost use Rattle.cleanup_refiner.specs.Cleans.{touched, touches};

use digraph::Digraph;
use plan_core::{Plan, files_are_listed_by_pair};
use std::alloc::Global;
use values::{Memory, PairId, TaskId};

fn push_pairs(numbers: &mut Vec<u32>, pairs: &[PairId]) -> Result<(), Memory>
    ensures { OnOk result (numbers.new.items ≡ numbers.old.items ++ pair_numbers pairs.now) }
{
    for pair in pairs {
        numbers.push(pair.0)?;
    }
    Ok(())
}

fn touched(alloc: Global, plan: &Plan, task: TaskId) -> Result<Vec<u32>, Memory>
    ensures { IfOk result (λ v. v.items ≡ touched plan.now task.0) }
{
    let mut pairs = Vec::new(alloc);
    push_pairs(&mut pairs, plan.writes(task))?;
    push_pairs(&mut pairs, plan.reads(task))?;
    Ok(pairs)
}

fn touched_lists(alloc: Global, plan: &Plan, nodes: usize) -> Result<Vec<Vec<u32>>, Memory>
    requires few { nodes < 2 ^ 32 }
    ensures long { IfOk result (λ v. length v.items ≡ nodes) }
    ensures lists { IfOk result (λ v. (t : ℕ) → t < nodes
        → neighbours (lists_of v.items) t ≡ touched plan.now t) }
{
    let mut all = Vec::new(alloc);
    for t in 0..nodes {
        let pairs = touched(alloc, plan, TaskId(t as u32))?;
        all.push(pairs)?;
    }
    Ok(all)
}

/// The graph in which an edge leads from each pair to the tasks that write or read it.
pub fn touching(alloc: Global, plan: &Plan) -> Result<Digraph, Memory>
    requires { IsProper plan.now }
    ensures count { IfOk result (λ g. count g ≡ max (count_tasks plan.now) (count_pairs plan.now)) }
    ensures edges { IfOk result (λ g. (q t : ℕ) → edge g q t ≡ touches plan.now q t) }
{
    // A law for the proof: it does nothing.
    files_are_listed_by_pair();
    let tasks = plan.tasks.as_slice().len();
    let nodes = tasks.max(plan.pairs.as_slice().len());
    let lists = touched_lists(alloc, plan, nodes)?;
    let graph = Digraph::new(alloc, &lists)?;
    Ok(graph)
}
