//! The order of a plan.

ghost use Rattle.std.specs.Prelude.{◌≡◌, IfErr, IfOk};
ghost use Rattle.plan_core.specs.code.Proper.{IsProper};
ghost use Rattle.plan_core.specs.Words.{task_numbers};
ghost use Rattle.storage_simulation.specs.code.Goods.{IsWithinLimits};
ghost use Rattle.storage_simulation.specs.code.Ordering.{IsOrder};
ghost use Rattle.storage_simulation.specs.Ordering.{at_start};
ghost use Rattle.planner.specs.code.Ordering.{CannotOrder};
ghost use Rattle.planner.specs.code.PlanFault.{exceeds_fault, place_name};

use crate::plan_fault::PlanFault;
use plan_core::Plan;
use std::alloc::Global;
use storage_simulation::{Exceeds, OrderFault, Ordered, order};
use values::{Memory, SiteId, Text};

fn place_name(alloc: Global, plan: &Plan, place: SiteId) -> Result<Text, Memory>
    ensures { IfOk result (λ name. name ≡ place_name plan.now place.0) }
{
    match plan.sites.as_slice().get(place.0 as usize) {
        Some(site) => site.name.copied(alloc),
        None => Text::copy_of(alloc, ""),
    }
}

/// The fault of planning for a task that passes a bound.
fn of_exceeds(alloc: Global, plan: &Plan, exceeds: Exceeds) -> Result<PlanFault, Memory>
    ensures { IfOk result (λ f. f ≡ exceeds_fault plan.now exceeds) }
{
    let site = place_name(alloc, plan, exceeds.site)?;
    Ok(PlanFault::Exceeds {
        site,
        task: exceeds.task,
        needed: exceeds.needed,
        bound: exceeds.bound,
    })
}

/// The plan with its order.
pub(crate) fn with_order(alloc: Global, plan: Plan) -> Result<Ordered, PlanFault>
    requires proper { IsProper plan }
    requires limits { IsWithinLimits plan }
    ensures plan { IfOk result (λ o. o.plan ≡ plan) }
    ensures order { IfOk result (λ o. IsOrder plan at_start (task_numbers o.tasks.items)) }
    ensures fault { IfErr result (CannotOrder plan) }
{
    let refused = match order(alloc, plan) {
        Ok(ordered) => return Ok(ordered),
        Err(refused) => refused,
    };
    match refused.fault {
        OrderFault::Exceeds(exceeds) => {
            let fault = of_exceeds(alloc, &refused.plan, exceeds)?;
            Err(fault)
        }
        OrderFault::Memory => Err(PlanFault::Memory),
    }
}
