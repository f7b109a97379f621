//! The Cleans of a plan.

ghost use Rattle.std.specs.Prelude.{◌≡◌, ◌≤◌, ◌+◌, ◌<◌, ℕ, [], map, length, max, IfOk, IfErr, ◌++◌};
ghost use Rattle.digraph.specs.code.Digraph.{count, edge};
ghost use Rattle.values.specs.declared.numbers.PairId.{PairId as Pair};
ghost use Rattle.plan_core.specs.declared.plan.TaskKind.TheVariants.{Clean};
ghost use Rattle.plan_core.specs.code.Proper.{IsProper};
ghost use Rattle.plan_core.specs.Words.{count_pairs, count_tasks};
ghost use Rattle.cleanup_refiner.specs.Cleans.{with_cleanup, cleans_of, task, touches};

use crate::touching::touching;
use digraph::Digraph;
use plan_core::{Plan, Task, TaskKind, rising_lists_are_one};
use plan_request::Cleanup;
use std::alloc::Global;
use values::{Items, Memory, PairId, TaskId};

/// Want of memory; the plan comes back as it was.
#[derive(Drop)]
pub struct CleanRefused {
    pub plan: Plan,
}

fn task_ids(alloc: Global, numbers: &[u32]) -> Result<Vec<TaskId>, Memory>
    ensures { IfOk result (λ v. v.items ≡ map task numbers.now) }
{
    let mut tasks = Vec::new(alloc);
    for number in numbers {
        tasks.push(TaskId(*number))?;
    }
    Ok(tasks)
}

/// The Clean of a pair after these tasks.
fn clean_after(alloc: Global, pair: PairId, tasks: &[u32]) -> Result<Task, Memory>
    ensures { IfOk result (λ t. t ≡ record {
      kind = Clean pair;
      reads = [];
      writes = [];
      parents = map task tasks.now;
    }) }
{
    let parents = task_ids(alloc, tasks)?;
    Ok(Task {
        kind: TaskKind::Clean { pair },
        reads: Items::new(Vec::new(alloc)),
        writes: Items::new(Vec::new(alloc)),
        parents: Items::new(parents),
    })
}

fn cleans_of(alloc: Global, plan: &Plan, touching: &Digraph) -> Result<Vec<Task>, Memory>
    requires proper { IsProper plan.now }
    requires count { count touching.now ≡ max (count_tasks plan.now) (count_pairs plan.now) }
    requires edges { (q t : ℕ) → edge touching.now q t ≡ touches plan.now q t }
    ensures { IfOk result (λ v. v.items ≡ cleans_of plan.now) }
{
    // A law for the proof: it does nothing.
    rising_lists_are_one();
    let mut cleans = Vec::new(alloc);
    let lists = touching.successors();
    for q in 0..plan.pairs.as_slice().len() {
        let clean = clean_after(alloc, PairId(q as u32), lists[q].as_slice())?;
        cleans.push(clean)?;
    }
    Ok(cleans)
}

fn cleans(alloc: Global, plan: &Plan) -> Result<Vec<Task>, Memory>
    requires { IsProper plan.now }
    ensures { IfOk result (λ v. v.items ≡ cleans_of plan.now) }
{
    let touching = touching(alloc, plan)?;
    cleans_of(alloc, plan, &touching)
}

/// Adds the Cleans that a strategy asks for, in n log n of the plan's size.
pub fn add_cleans(alloc: Global, plan: Plan, strategy: Cleanup) -> Result<Plan, CleanRefused>
    requires { IsProper plan }
    ensures ok { IfOk result (λ p. p ≡ with_cleanup strategy plan) }
    ensures err { IfErr result (λ r. r.plan ≡ plan) }
{
    if let Cleanup::None = strategy {
        return Ok(plan);
    }
    match cleans(alloc, &plan) {
        Ok(cleans) => match plan.with_tasks(cleans) {
            Ok(plan) => Ok(plan),
            Err(plan) => Err(CleanRefused { plan }),
        },
        Err(Memory) => Err(CleanRefused { plan }),
    }
}
