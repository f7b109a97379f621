//! What is stored, and what is reserved, at a place.

ghost use Rattle.std.specs.Prelude.{◌≡◌, ◌≤◌, ◌+◌, ◌*◌, ◌^◌, ℕ, cond};
ghost use Rattle.storage_simulation.specs.code.Goods.{IsWithinLimits};
ghost use Rattle.storage_simulation.specs.Goods.{goods, lies_at};
ghost use Rattle.storage_simulation.specs.code.Standings.{IsStanding, held_of};
ghost use Rattle.lease_rules.specs.Law.{reserved_at, stored_at};
ghost use Rattle.lease_rules.specs.State.{reserved_size, stored_size};

use plan_core::Plan;
use storage_simulation::{Held, Standing, lies_at};

/// How many goods count.
#[tactic(auto, unfolding(storage_simulation::specs::Goods::goods))]
fn count_goods(plan: &Plan) -> usize
    requires { IsWithinLimits plan.now }
    ensures value { result ≡ goods plan.now }
    ensures few { result ≤ 64 * 50000 + 120000 }
{
    let pairs = plan.pairs.as_slice().len();
    match plan.output_bound() {
        Some(_) => pairs + plan.tasks.as_slice().len(),
        None => pairs,
    }
}

/// What is held of a good.
pub(crate) fn held_of(standing: &Standing, good: u32) -> Held
    ensures { result ≡ held_of standing.now good }
{
    let pairs = standing.held.as_slice().len();
    let held = if (good as usize) < pairs {
        standing.held.as_slice().get(good as usize)
    } else {
        standing.deliveries.as_slice().get(good as usize - pairs)
    };
    match held {
        Some(found) => *found,
        None => Held::Nothing,
    }
}

#[tactic(auto, using(crate::proofs::SumLemmas::stored_small))]
fn stored_part(plan: &Plan, standing: &Standing, place: u32, good: u32) -> u64
    requires standing { IsStanding plan.now standing.now }
    ensures value { result ≡ cond (lies_at plan.now good place) (stored_size (held_of standing.now good)) 0 }
    ensures small { result ≤ 2 ^ 40 }
{
    if !lies_at(plan, good, place) {
        return 0;
    }
    match held_of(standing, good) {
        Held::Stored(size) => size,
        _ => 0,
    }
}

#[tactic(auto, using(crate::proofs::SumLemmas::reserved_small))]
fn reserved_part(plan: &Plan, standing: &Standing, place: u32, good: u32) -> u64
    requires standing { IsStanding plan.now standing.now }
    ensures value { result ≡ cond (lies_at plan.now good place)
        (reserved_size (held_of standing.now good)) 0 }
    ensures small { result ≤ 2 ^ 40 }
{
    if !lies_at(plan, good, place) {
        return 0;
    }
    match held_of(standing, good) {
        Held::Reserved(bytes) => bytes,
        _ => 0,
    }
}

/// The bytes that are stored at a place.
#[tactic(auto, using(crate::proofs::SumLemmas::sum_more), unfolding(values::specs::Numbers::total))]
pub(crate) fn stored_at(plan: &Plan, standing: &Standing, place: u32) -> u64
    requires limits { IsWithinLimits plan.now }
    requires standing { IsStanding plan.now standing.now }
    ensures { result ≡ stored_at plan.now (held_of standing.now) place }
{
    let mut sum = 0;
    for good in 0..count_goods(plan) {
        sum += stored_part(plan, standing, place, good as u32);
    }
    sum
}

/// The bytes that are reserved at a place.
#[tactic(auto, using(crate::proofs::SumLemmas::sum_more), unfolding(values::specs::Numbers::total))]
pub(crate) fn reserved_at(plan: &Plan, standing: &Standing, place: u32) -> u64
    requires limits { IsWithinLimits plan.now }
    requires standing { IsStanding plan.now standing.now }
    ensures { result ≡ reserved_at plan.now (held_of standing.now) place }
{
    let mut sum = 0;
    for good in 0..count_goods(plan) {
        sum += reserved_part(plan, standing, place, good as u32);
    }
    sum
}
