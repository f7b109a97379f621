//! Whether a plan is proper.

ghost use Rattle.std.specs.Prelude.{◌≡◌, ◌↔◌, true, IfOk};
ghost use Rattle.plan_core.specs.code.Proper.{IsProper};

use crate::flow::has_flow;
use crate::plan::Plan;
use crate::tables::has_tables;
use crate::tasks::are_tasks;
use std::alloc::Global;
use values::Memory;

/// Whether a plan is proper, in n log n of its size.
pub fn check(alloc: Global, plan: &Plan) -> Result<bool, Memory>
    ensures { IfOk result (λ b. b ≡ true ↔ IsProper plan.now) }
{
    let tables = has_tables(alloc, plan)?;
    if !tables {
        return Ok(false);
    }
    let tasks = are_tasks(alloc, plan)?;
    if !tasks {
        return Ok(false);
    }
    let flow = has_flow(alloc, plan)?;
    Ok(flow)
}
