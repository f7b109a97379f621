//! What an order is made on.

ghost use Rattle.std.specs.Prelude.{◌≡◌, [], IfOk};
ghost use Rattle.plan_core.specs.code.Proper.{IsProper};
ghost use Rattle.storage_simulation.specs.code.Bench.{IsFor};
ghost use Rattle.storage_simulation.specs.code.Goods.{IsWithinLimits};

use crate::front::Front;
use crate::index::Index;
use plan_core::Plan;
use std::alloc::Global;
use values::{Memory, TaskId};

/// The front of an order, and an index of the tasks that may be placed next. Each list is as long as the plan asks for
/// from the start.
#[derive(Drop)]
pub struct Bench {
    pub(crate) front: Front,
    pub(crate) index: Index,
}

impl Bench {
    /// A bench for the orders of a plan, on which no task stands yet.
    pub fn new(alloc: Global, plan: &Plan) -> Result<Bench, Memory>
        requires proper { IsProper plan.now }
        requires limits { IsWithinLimits plan.now }
        ensures made_for { IfOk result (λ b. IsFor plan.now b) }
        ensures empty { IfOk result (λ b. b.front.placed.items ≡ []) }
    {
        Ok(Bench {
            front: Front::new(alloc, plan)?,
            index: Index::new(alloc, plan)?,
        })
    }

    /// The tasks that were placed by the last order, in order.
    pub fn tasks(&self) -> &[TaskId]
        ensures { result.now ≡ self.now.front.placed.items }
    {
        self.front.placed.as_slice()
    }
}
