//! An index of the tasks that may be placed next.

ghost use Rattle.std.specs.Prelude.{◌≡◌, ◌≤◌, IfOk, length, replicate};
ghost use Rattle.storage_simulation.specs.code.Goods.{IsWithinLimits};
ghost use Rattle.storage_simulation.specs.code.Index.{IsIndexFor};

use crate::goods::places;
use plan_core::Plan;
use std::alloc::Global;
use tournament_tree::Tree;
use values::Memory;

/// The home of a task, what it needs of its place, and its number.
pub type Spot = (u32, u64, u32);

/// The tasks by home and need, each with its key there while it is ready; for each home the least key of the tasks that
/// may be placed; and of each task its slot among the spots and the two halves of its score.
///
/// A placed task changes the keys of itself, of its children that become ready and of the last parents of others, and
/// then the bests of their homes and of its place. Each task becomes ready once, and has one last parent left once; a
/// change is a walk up a tree, and a best two searches and a question of a tree. So an order of n tasks and m edges
/// takes some `(n + m) + n log n` steps, and no list of tasks or places is scanned in a step.
pub struct Index {
    pub(crate) spots: Vec<Spot>,
    pub(crate) slots: Vec<u32>,
    pub(crate) keys: Tree,
    pub(crate) best: Tree,
    pub(crate) comes: Vec<u64>,
    pub(crate) goes: Vec<u64>,
}

impl Drop for Index {
    fn drop(self) {
        let Index {
            spots,
            slots,
            keys,
            best,
            comes,
            goes,
        } = self;
    }
}

impl Index {
    /// An index for the orders of a plan.
    pub(crate) fn new(alloc: Global, plan: &Plan) -> Result<Index, Memory>
        requires { IsWithinLimits plan.now }
        ensures { IfOk result (λ ix. IsIndexFor plan.now ix) }
    {
        let tasks = plan.tasks.as_slice().len();
        Ok(Index {
            spots: vec![in alloc; (0, 0, 0); tasks]?,
            slots: vec![in alloc; 0; tasks]?,
            keys: Tree::empty(alloc, tasks)?,
            best: Tree::empty(alloc, places(plan) + 2)?,
            comes: vec![in alloc; 0; tasks]?,
            goes: vec![in alloc; 0; tasks]?,
        })
    }
}
