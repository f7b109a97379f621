//! Whether an order fits a standing.

ghost use Rattle.std.specs.Prelude.{◌≡◌, ◌≤◌, ◌<◌, ◌+◌, IfErr, IfOk, MatchOption, None, Some, [], length, take};
ghost use Rattle.plan_core.specs.code.Proper.{IsProper};
ghost use Rattle.plan_core.specs.Words.{task_numbers};
ghost use Rattle.storage_simulation.specs.Fitting.{Fits};
ghost use Rattle.storage_simulation.specs.code.Fitting.{IsFirstPast};
ghost use Rattle.storage_simulation.specs.code.Following.{Follows};
ghost use Rattle.storage_simulation.specs.code.Goods.{IsWithinLimits};
ghost use Rattle.storage_simulation.specs.Goods.{places};
ghost use Rattle.storage_simulation.specs.code.Law.{KeepsGoods};
ghost use Rattle.storage_simulation.specs.code.Past.{IsFound, IsPastAt, KeepsBound};
ghost use Rattle.storage_simulation.specs.declared.fitting.Past.{Past};
ghost use Rattle.storage_simulation.specs.code.Standings.{IsStanding, held_of, phase_of};
ghost use Rattle.storage_simulation.specs.Standings.{sizes};
ghost use Rattle.storage_simulation.specs.Usage.{IsWithin, usage};

use crate::change::{after_making, cleaned_at};
use crate::goods::{cleaned_by, place_bound, places};
use crate::law::proper_plans_keep_goods;
use crate::standing::Standing;
use crate::usage::usage_after;
use plan_core::Plan;
use values::{SiteId, TaskId};

/// The first task of an order after which a site holds more than its bound, in bytes. The output has the number that
/// follows the last site's.
#[derive(Clone, Copy)]
pub struct Exceeds {
    pub site: SiteId,
    pub task: TaskId,
    pub needed: u64,
    pub bound: u64,
}

/// A position in an order after whose task a place holds more than its bound.
#[derive(Clone, Copy)]
struct Past {
    position: usize,
    place: u32,
    needed: u64,
    bound: u64,
}

/// What a place holds after one task more of an order.
fn after_next(
    plan: &Plan,
    standing: &Standing,
    order: &[TaskId],
    k: usize,
    place: u32,
    before: u64,
) -> u64
    requires goods { KeepsGoods plan.now }
    requires limits { IsWithinLimits plan.now }
    requires standing { IsStanding plan.now standing.now }
    requires follows { Follows plan.now (phase_of standing.now) (task_numbers order.now) }
    requires place { place < places plan.now }
    requires within { k < length order.now }
    requires before { before ≡ usage plan.now (sizes (held_of standing.now))
        (take k (task_numbers order.now)) place }
    ensures { result ≡ usage plan.now (sizes (held_of standing.now))
        (take (k + 1) (task_numbers order.now)) place }
{
    let task = order[k];
    match cleaned_by(plan, task) {
        Some(good) => before - cleaned_at(plan, standing, place, task, good),
        None => after_making(plan, standing, place, task, before),
    }
}

/// The first of some tasks after which a place holds more than its bound.
fn first_past(
    plan: &Plan,
    standing: &Standing,
    order: &[TaskId],
    end: usize,
    place: u32,
) -> Option<Past>
    requires goods { KeepsGoods plan.now }
    requires limits { IsWithinLimits plan.now }
    requires standing { IsStanding plan.now standing.now }
    requires follows { Follows plan.now (phase_of standing.now) (task_numbers order.now) }
    requires start { IsWithin plan.now (sizes (held_of standing.now)) [] }
    requires place { place < places plan.now }
    requires end { end ≤ length order.now }
    ensures { MatchOption result (KeepsBound plan.now (sizes (held_of standing.now))
        (task_numbers order.now) place end) (λ e. IsPastAt plan.now (sizes (held_of standing.now))
        (task_numbers order.now) place end e) }
{
    let bound = place_bound(plan, place);
    let mut sum = usage_after(plan, standing, &[], SiteId(place));
    for position in 0..end {
        sum = after_next(plan, standing, order, position, place, sum);
        if sum > bound {
            return Some(Past {
                position,
                place,
                needed: sum,
                bound,
            });
        }
    }
    None
}

/// How many tasks are to be looked at.
fn end_of(order: &[TaskId], found: &Option<Past>) -> usize
    ensures none { found.now ≡ None → result ≡ length order.now }
    ensures some { (e : Past) → found.now ≡ Some e → result ≡ e.position }
{
    match found {
        Some(past) => past.position,
        None => order.len(),
    }
}

/// The same with one place more.
fn sooner(
    plan: &Plan,
    standing: &Standing,
    order: &[TaskId],
    found: Option<Past>,
    place: u32,
) -> Option<Past>
    requires goods { KeepsGoods plan.now }
    requires limits { IsWithinLimits plan.now }
    requires standing { IsStanding plan.now standing.now }
    requires follows { Follows plan.now (phase_of standing.now) (task_numbers order.now) }
    requires start { IsWithin plan.now (sizes (held_of standing.now)) [] }
    requires place { place < places plan.now }
    requires found { IsFound plan.now (sizes (held_of standing.now)) (task_numbers order.now) place found }
    ensures { IsFound plan.now (sizes (held_of standing.now)) (task_numbers order.now) (place + 1) result }
{
    let end = end_of(order, &found);
    match first_past(plan, standing, order, end, place) {
        Some(past) => Some(past),
        None => found,
    }
}

/// The first task of an order after which some place holds more than its bound, and the first such place.
fn first_of_all(plan: &Plan, standing: &Standing, order: &[TaskId]) -> Option<Past>
    requires goods { KeepsGoods plan.now }
    requires limits { IsWithinLimits plan.now }
    requires standing { IsStanding plan.now standing.now }
    requires follows { Follows plan.now (phase_of standing.now) (task_numbers order.now) }
    requires start { IsWithin plan.now (sizes (held_of standing.now)) [] }
    ensures { IsFound plan.now (sizes (held_of standing.now)) (task_numbers order.now)
        (places plan.now) result }
{
    let mut found = None;
    for place in 0..places(plan) {
        found = sooner(plan, standing, order, found, place as u32);
    }
    found
}

/// Tells whether an order whose tasks come after their parents keeps each bound, by a running total for each place.
pub fn fits(plan: &Plan, standing: &Standing, order: &[TaskId]) -> Result<(), Exceeds>
    requires proper { IsProper plan.now }
    requires limits { IsWithinLimits plan.now }
    requires standing { IsStanding plan.now standing.now }
    requires follows { Follows plan.now (phase_of standing.now) (task_numbers order.now) }
    requires start { IsWithin plan.now (sizes (held_of standing.now)) [] }
    ensures fits { IfOk result (λ _. Fits plan.now (phase_of standing.now) (held_of standing.now)
        (task_numbers order.now)) }
    ensures first { IfErr result (λ e. IsFirstPast plan.now (sizes (held_of standing.now))
        (task_numbers order.now) e) }
{
    proper_plans_keep_goods();
    match first_of_all(plan, standing, order) {
        Some(past) => Err(Exceeds {
            site: SiteId(past.place),
            task: order[past.position],
            needed: past.needed,
            bound: past.bound,
        }),
        None => Ok(()),
    }
}
