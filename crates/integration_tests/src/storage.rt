//! Usage and fit of the diamond's order, from the start and from a standing under way.

ghost use Rattle.std.specs.Prelude.{◌≡◌, ◌≤◌, ◌^◌, ℕ, [], true};
ghost use Rattle.plan_core.specs.Words.{declared};
ghost use Rattle.storage_simulation.specs.code.Goods.{IsWithinLimits};
ghost use Rattle.storage_simulation.specs.Goods.{or_zero, place_bound};
ghost use Rattle.storage_simulation.specs.code.Standings.{IsStanding, at_in, held_of};
ghost use Rattle.storage_simulation.specs.Standings.{held_size, sizes};
ghost use Rattle.storage_simulation.specs.declared.standing.Held.TheVariants.{Nothing};
ghost use Rattle.storage_simulation.specs.Usage.{IsWithin};

use crate::sketches::{DIAMOND_CLEANED, plan_of, task_ids};
use plan_core::{Plan, check};
use std::alloc::Global;
use std::test::Fail;
use storage_simulation::{Held, Phase, Standing, fits, follows, usage_after};
use values::{Items, Memory, Policy, SiteId, TaskId};

/// What is held of each pair, how far each task is, and what is held of each task's delivery.
type Lists = (&'static [Held], &'static [Phase], &'static [Held]);

/// A standing of the diamond, which is the start where none is given, an order from there, and the usage of its site
/// after each front, the empty one first.
#[derive(Clone, Copy)]
struct Case {
    name: &'static str,
    standing: Option<Lists>,
    order: &'static [u32],
    usages: &'static [u64],
}

fn held_size(held: &Held) -> u64
    ensures { result ≡ held_size held.now }
{
    match held {
        Held::Nothing => 0,
        Held::Stored(size) => *size,
        Held::Reserved(size) => *size,
    }
}

fn are_small(held: &[Held]) -> bool
    ensures { result ≡ true → (g : ℕ) → held_size (at_in Nothing held.now g) ≤ 2 ^ 40 }
{
    for one in held {
        if held_size(one) > 1_099_511_627_776 {
            return false;
        }
    }
    true
}

/// Whether a standing is one of the plan.
#[tactic(auto, using(crate::proofs::StorageLemmas::both_small))]
fn is_standing(plan: &Plan, standing: &Standing) -> bool
    ensures { result ≡ true → IsStanding plan.now standing.now }
{
    let held = standing.held.as_slice();
    let deliveries = standing.deliveries.as_slice();
    let tasks = plan.tasks.as_slice().len();
    if held.len() != plan.pairs.as_slice().len() {
        return false;
    }
    if standing.tasks.as_slice().len() != tasks || deliveries.len() != tasks {
        return false;
    }
    if !are_small(held) {
        return false;
    }
    are_small(deliveries)
}

#[tactic(auto, unfolding(plan_core::specs::Words::declared))]
fn are_sizes_small(plan: &Plan) -> bool
    ensures { result ≡ true → (f : ℕ) → or_zero (declared plan.now f) ≤ 2 ^ 40 }
{
    for file in plan.files.as_slice() {
        match file.declared {
            Some(size) => {
                if size > 1_099_511_627_776 {
                    return false;
                }
            }
            None => {}
        }
    }
    true
}

/// Whether a plan is within its limits.
pub fn is_limited(plan: &Plan) -> bool
    ensures { result ≡ true → IsWithinLimits plan.now }
{
    if plan.sites.as_slice().len() > 64 || plan.pairs.as_slice().len() > 3_200_000 {
        return false;
    }
    if plan.tasks.as_slice().len() > 120_000 {
        return false;
    }
    are_sizes_small(plan)
}

#[tactic(auto, unfolding(storage_simulation::specs::Goods::place_bound))]
fn bound_of(plan: &Plan, place: u32) -> u64
    ensures { result ≡ place_bound plan.now place }
{
    if (place as usize) < plan.sites.as_slice().len() {
        return plan.bound(SiteId(place));
    }
    match plan.output_bound() {
        Some(bound) => bound,
        None => 0,
    }
}

/// Whether a standing is within each bound.
fn is_within(plan: &Plan, standing: &Standing) -> bool
    requires limits { IsWithinLimits plan.now }
    requires standing { IsStanding plan.now standing.now }
    ensures { result ≡ true → IsWithin plan.now (sizes (held_of standing.now)) [] }
{
    for place in 0..65 {
        if usage_after(plan, standing, &[], SiteId(place)) > bound_of(plan, place) {
            return false;
        }
    }
    true
}

fn copied<T: Copy + Drop>(alloc: Global, items: &[T]) -> Result<Items<T>, Memory> {
    Ok(Items::new(items.iter().copied().collect(alloc)?))
}

fn standing_of(alloc: Global, plan: &Plan, lists: &Option<Lists>) -> Result<Standing, Memory> {
    match lists {
        None => Standing::start(alloc, plan),
        Some((held, tasks, deliveries)) => Ok(Standing {
            held: copied(alloc, held)?,
            tasks: copied(alloc, tasks)?,
            deliveries: copied(alloc, deliveries)?,
        }),
    }
}

/// Whether these are the usages of the first site after each front.
fn are_usages(plan: &Plan, standing: &Standing, order: &[TaskId], usages: &[u64]) -> bool
    requires limits { IsWithinLimits plan.now }
    requires standing { IsStanding plan.now standing.now }
{
    if usages.len() != order.len() + 1 {
        return false;
    }
    for (k, usage) in usages.iter().enumerate() {
        let front = order.get(..k).unwrap_or(order);
        if usage_after(plan, standing, front, SiteId(0)) != *usage {
            return false;
        }
    }
    true
}

/// Whether a case's order goes on from a standing of the plan as it says.
fn goes_on(
    alloc: Global,
    plan: &Plan,
    standing: &Standing,
    order: &[TaskId],
    usages: &[u64],
) -> Result<bool, Memory> {
    let proper = check(alloc, plan)?;
    if !proper || !is_limited(plan) || !is_standing(plan, standing) {
        return Ok(false);
    }
    if !are_usages(plan, standing, order, usages) || !is_within(plan, standing) {
        return Ok(false);
    }
    let follows = follows(alloc, plan, standing, order)?;
    if !follows {
        return Ok(false);
    }
    Ok(fits(plan, standing, order).is_ok())
}

fn is_right_of(alloc: Global, plan: &Plan, case: &Case) -> Result<bool, Memory> {
    let order = task_ids(alloc, case.order)?;
    let standing = standing_of(alloc, plan, &case.standing)?;
    let answer = goes_on(alloc, plan, &standing, &order, case.usages);
    drop(standing);
    answer
}

fn is_right(alloc: Global, case: &Case) -> Result<bool, Memory> {
    let plan = plan_of(alloc, &DIAMOND_CLEANED, Policy::plain())?;
    let answer = is_right_of(alloc, &plan, case);
    drop(plan);
    answer
}

const ORDER: &[u32] = &[4, 0, 6, 1, 7, 2, 8, 3, 9, 10, 5, 11];

/// The first pair is stored at 4 bytes, and its task has ended; what the first job makes is reserved, and it runs.
const UNDER_WAY: Lists = (
    &[
        Held::Stored(4),
        Held::Reserved(10),
        Held::Reserved(10),
        Held::Nothing,
        Held::Nothing,
        Held::Nothing,
    ],
    &[
        Phase::Runs,
        Phase::Waits,
        Phase::Waits,
        Phase::Waits,
        Phase::Ended,
        Phase::Waits,
        Phase::Waits,
        Phase::Waits,
        Phase::Waits,
        Phase::Waits,
        Phase::Waits,
        Phase::Waits,
    ],
    &[Held::Nothing; 12],
);

const CASES: [Case; 2] = [
    Case {
        name: "diamond",
        standing: None,
        order: ORDER,
        usages: &[0, 10, 30, 20, 30, 20, 30, 20, 30, 20, 10, 10, 0],
    },
    Case {
        name: "under way",
        standing: Some(UNDER_WAY),
        order: &[6, 1, 7, 2, 8, 3, 9, 10, 5, 11],
        usages: &[24, 20, 30, 20, 30, 20, 30, 20, 10, 10, 0],
    },
];

#[test]
fn usages_and_fits_are_right(rt: HostRuntime) -> Result<(), Fail> {
    for case in &CASES {
        if is_right(rt.alloc(), case).ok() != Some(true) {
            return Err(Fail::new(case.name));
        }
    }
    Ok(())
}
