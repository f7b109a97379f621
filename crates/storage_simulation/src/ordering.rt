//! The order from a standing.

ghost use Rattle.std.specs.Prelude.{◌≡◌, ◌<◌, [], ℕ, IfErr, OnErr, OnOk, get_or};
ghost use Rattle.plan_core.specs.declared.plan.Plan.{Plan};
ghost use Rattle.plan_core.specs.code.Proper.{IsProper};
ghost use Rattle.storage_simulation.specs.code.Bench.{IsFor};
ghost use Rattle.storage_simulation.specs.code.Front.{IsOrderable, IsSet, front_of};
ghost use Rattle.storage_simulation.specs.code.Index.{IsIndex, IsIndexFor};
ghost use Rattle.storage_simulation.specs.code.Goods.{IsWithinLimits};
ghost use Rattle.storage_simulation.specs.Goods.{places};
ghost use Rattle.storage_simulation.specs.code.Ordering.{IsExceeds, IsOrder, IsPeak, progress};
ghost use Rattle.storage_simulation.specs.code.Standings.{IsStanding, held_of};
ghost use Rattle.storage_simulation.specs.Standings.{sizes};
ghost use Rattle.storage_simulation.specs.Usage.{IsWithin};

use crate::advancing::{advance, index_front, next_by_index};
use crate::bench::Bench;
use crate::choosing::Next;
use crate::fitting::Exceeds;
use crate::front::Front;
use crate::index::Index;
use crate::law::proper_plans_keep_goods;
use crate::order_law::some_task_is_next;
use crate::resetting::reset;
use crate::standing::Standing;
use plan_core::{Plan, files_are_listed_by_pair, numbers_are_in_range, parents_come_before};

/// A law for the proof: what an order takes of a proper plan.
fn proper_plans_are_orderable()
    ensures { (p : Plan) → IsProper p → IsOrderable p }
{
    proper_plans_keep_goods();
    parents_come_before();
    files_are_listed_by_pair();
    numbers_are_in_range();
}

/// Places the waiting tasks at a front at which none is placed, by an index of it.
fn fill(
    plan: &Plan,
    standing: &Standing,
    front: &mut Front,
    index: &mut Index,
) -> Result<(), Exceeds>
    requires proper { IsProper plan.now }
    requires set { IsSet plan.now standing.now front.old }
    requires index { IsIndex plan.now (progress standing.now) (front_of front.old) index.old }
    ensures set { IsSet plan.now standing.now front.new }
    ensures index { IsIndexFor plan.now index.new }
    ensures order { OnOk result (IsOrder plan.now (progress standing.now) (front_of front.new)) }
    ensures exceeds { IfErr result (λ e. IsExceeds plan.now (progress standing.now) e) }
{
    some_task_is_next();
    for step in 0..plan.tasks.as_slice().len() {
        match next_by_index(plan, standing, front, index) {
            Next::Place(task) => advance(plan, standing, front, index, task),
            Next::Done => return Ok(()),
            Next::Stuck(exceeds) => return Err(exceeds),
        }
    }
    Ok(())
}

/// Makes the order of the waiting tasks on a bench that was made for the plan. After a refusal the bench has no task,
/// and it is as good for the next order. The standing is within each bound.
pub fn order_from(plan: &Plan, standing: &Standing, bench: &mut Bench) -> Result<(), Exceeds>
    requires proper { IsProper plan.now }
    requires limits { IsWithinLimits plan.now }
    requires standing { IsStanding plan.now standing.now }
    requires start { IsWithin plan.now (sizes (held_of standing.now)) [] }
    requires bench { IsFor plan.now bench.old }
    ensures order { OnOk result (IsOrder plan.now (progress standing.now) (front_of bench.new.front)) }
    ensures peaks { OnOk result ((s : ℕ) → s < places plan.now
        → IsPeak plan.now (progress standing.now) (front_of bench.new.front) s
        (get_or bench.new.front.peaks.items s 0)) }
    ensures exceeds { IfErr result (λ e. IsExceeds plan.now (progress standing.now) e) }
    ensures empty { OnErr result (bench.new.front.placed.items ≡ []) }
    ensures bench { IsFor plan.now bench.new }
{
    proper_plans_are_orderable();
    reset(plan, standing, &mut bench.front);
    index_front(plan, standing, &bench.front, &mut bench.index);
    let filled = fill(plan, standing, &mut bench.front, &mut bench.index);
    if filled.is_err() {
        bench.front.placed.clear();
    }
    filled
}
