//! What follows from a plan once for all: the children of each task, and the Clean of each pair.

ghost use Rattle.std.specs.Prelude.{◌≡◌, ◌<◌, ◌+◌, ◌^◌, ℕ, true, cond, get_or, length, None, IfOk};
ghost use Rattle.digraph.specs.code.Adjacency.{lists_of};
ghost use Rattle.digraph.specs.Adjacency.{neighbours};
ghost use Rattle.digraph.specs.code.Digraph.{count, edge};
ghost use Rattle.plan_core.specs.code.Numbers.{RisesFrom};
ghost use Rattle.plan_core.specs.Numbers.{has};
ghost use Rattle.plan_core.specs.code.Proper.{IsProper};
ghost use Rattle.plan_core.specs.Words.{count_pairs, count_tasks, parents, task_numbers};
ghost use Rattle.storage_simulation.specs.code.Law.{KeepsGoods};
ghost use Rattle.place_peaks.specs.Links.{AreCleanersBefore, AreLinks, IsCleaner};

use crate::seating::at;
use digraph::Digraph;
use plan_core::Plan;
use std::alloc::Global;
use storage_simulation::{children_of, cleaned_by, parent_graph, proper_plans_keep_goods};
use values::{Memory, TaskId};

/// A graph that leads from each parent to its children, and by good the Clean of it.
#[derive(Drop)]
pub struct Links {
    pub(crate) children: Digraph,
    pub(crate) cleaners: Vec<Option<u32>>,
}

/// Notes the good that a task cleans.
fn note_clean(plan: &Plan, cleaners: &mut Vec<Option<u32>>, task: u32)
    requires goods { KeepsGoods plan.now }
    requires long { length cleaners.old.items ≡ count_pairs plan.now }
    requires so_far { AreCleanersBefore plan.now task cleaners.old.items }
    ensures long { length cleaners.new.items ≡ count_pairs plan.now }
    ensures next { AreCleanersBefore plan.now (task + 1) cleaners.new.items }
{
    if let Some(good) = cleaned_by(plan, TaskId(task)) {
        cleaners[good as usize] = Some(task);
    }
}

/// The Clean of each good.
fn cleaners_of(alloc: Global, plan: &Plan) -> Result<Vec<Option<u32>>, Memory>
    requires proper { IsProper plan.now }
    requires few { count_tasks plan.now < 2 ^ 32 }
    ensures { IfOk result (λ v. (g : ℕ) → IsCleaner plan.now g (get_or v.items g None)) }
{
    proper_plans_keep_goods();
    let mut cleaners = vec![in alloc; None; plan.pairs.as_slice().len()]?;
    for task in 0..plan.tasks.as_slice().len() {
        note_clean(plan, &mut cleaners, task as u32);
    }
    Ok(cleaners)
}

impl Links {
    /// The links of a plan.
    pub fn new(alloc: Global, plan: &Plan) -> Result<Links, Memory>
        requires proper { IsProper plan.now }
        ensures { IfOk result (λ links. AreLinks plan.now links) }
    {
        Ok(Links {
            children: parent_graph(alloc, plan)?,
            cleaners: cleaners_of(alloc, plan)?,
        })
    }

    /// The Clean of a good.
    pub(crate) fn cleaner_of(&self, good: u32) -> Option<u32>
        ensures { result ≡ get_or self.now.cleaners.items good None }
    {
        at(self.cleaners.as_slice(), good, None)
    }

    /// The children of a task.
    pub(crate) fn children_of(&self, task: u32) -> &[u32]
        ensures rises { RisesFrom 0 result.now }
        ensures same { (c : ℕ) → has result.now c ≡ edge self.now.children task c }
        ensures in_range { (c : ℕ) → has result.now c ≡ true → c < count self.now.children }
    {
        children_of(&self.children, TaskId(task))
    }
}
