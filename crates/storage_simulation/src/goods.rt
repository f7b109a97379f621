//! Goods and places of a plan.

ghost use Rattle.std.specs.Prelude.{◌≡◌, ◌≤◌, ◌+◌, ◌*◌, ◌==◌, ℕ, false, cond, is_some, MatchOption, None, Some};
ghost use Rattle.plan_core.specs.code.Numbers.{RisesFrom};
ghost use Rattle.plan_core.specs.Numbers.{has};
ghost use Rattle.std.specs.List.{list_any};
ghost use Rattle.values.specs.declared.numbers.PairId.{PairId};
ghost use Rattle.plan_core.specs.Words.{cleans, declared, output_bound, pair, pair_numbers};
ghost use Rattle.storage_simulation.specs.code.Goods.{IsWithinLimits, pair_site, place};
ghost use Rattle.storage_simulation.specs.Goods.{count_sites, delivered_size, good_size, goods, is_delivery, lies_at, makes, or_zero, pair_size, place_bound, places};

use plan_core::{Plan, Target, TaskKind};
use values::{FileId, PairId, SiteId, TaskId};

/// Whether a task is a delivery.
#[tactic(auto, unfolding(crate::specs::Goods::is_delivery))]
pub fn is_delivery(plan: &Plan, task: TaskId) -> bool
    ensures { result ≡ is_delivery plan.now task.0 }
{
    match plan.kind(task) {
        Some(
            TaskKind::Transfer {
                to: Target::Delivery,
                ..
            },
        ) => true,
        _ => false,
    }
}

/// The declared size of a file, 0 where there is none.
fn file_size(plan: &Plan, file: FileId) -> u64
    ensures { result ≡ or_zero (declared plan.now file.0) }
{
    match plan.declared(file) {
        Some(size) => size,
        None => 0,
    }
}

/// The declared size of the file that a task delivers.
#[tactic(auto, unfolding(crate::specs::Goods::delivered_size))]
fn delivered_size(plan: &Plan, task: TaskId) -> u64
    ensures { result ≡ delivered_size plan.now task.0 }
{
    match plan.kind(task) {
        Some(
            TaskKind::Transfer {
                file,
                to: Target::Delivery,
                ..
            },
        ) => file_size(plan, *file),
        _ => 0,
    }
}

/// How many goods count.
#[tactic(auto, unfolding(crate::specs::Goods::goods))]
pub(crate) fn goods(plan: &Plan) -> usize
    requires { IsWithinLimits plan.now }
    ensures value { result ≡ goods plan.now }
    ensures few { result ≤ 64 * 50000 + 120000 }
{
    let pairs = plan.pairs.as_slice().len();
    match plan.output_bound() {
        Some(_) => pairs + plan.tasks.as_slice().len(),
        None => pairs,
    }
}

/// How many places have a bound.
#[tactic(auto, unfolding(crate::specs::Goods::places))]
pub fn places(plan: &Plan) -> usize
    requires { IsWithinLimits plan.now }
    ensures value { result ≡ places plan.now }
    ensures few { result ≤ 65 }
{
    let sites = plan.sites.as_slice().len();
    match plan.output_bound() {
        Some(_) => sites + 1,
        None => sites,
    }
}

/// The bound of a place.
#[tactic(auto, unfolding(crate::specs::Goods::place_bound))]
pub fn place_bound(plan: &Plan, place: u32) -> u64
    ensures { result ≡ place_bound plan.now place }
{
    if (place as usize) < plan.sites.as_slice().len() {
        return plan.bound(SiteId(place));
    }
    match plan.output_bound() {
        Some(bound) => bound,
        None => 0,
    }
}

/// The site of a pair.
fn pair_site(plan: &Plan, number: PairId) -> Option<u32>
    ensures { result ≡ pair_site (pair plan.now number.0) }
{
    match plan.pair(number) {
        Some(found) => Some(found.site.0),
        None => None,
    }
}

/// The number of the output, where it has a bound.
fn output_place(plan: &Plan) -> Option<u32>
    requires { IsWithinLimits plan.now }
    ensures { result ≡ cond (is_some (output_bound plan.now)) (Some (count_sites plan.now)) None }
{
    match plan.output_bound() {
        Some(_) => Some(plan.sites.as_slice().len() as u32),
        None => None,
    }
}

/// The place at which a task changes usage.
#[tactic(auto, unfolding(crate::specs::code::Goods::place))]
pub fn place_of(plan: &Plan, task: TaskId) -> Option<u32>
    requires { IsWithinLimits plan.now }
    ensures { result ≡ place plan.now task.0 }
{
    match plan.kind(task) {
        Some(TaskKind::Transfer { to, .. }) => match to {
            Target::Site(site) => Some(site.0),
            Target::Delivery => output_place(plan),
        },
        Some(TaskKind::Run { site, .. }) => Some(site.0),
        Some(TaskKind::Clean { pair }) => pair_site(plan, *pair),
        None => None,
    }
}

/// The declared size of a pair's file.
pub(crate) fn pair_size(plan: &Plan, number: PairId) -> u64
    ensures { result ≡ pair_size plan.now (pair plan.now number.0) }
{
    match plan.pair(number) {
        Some(found) => file_size(plan, found.file),
        None => 0,
    }
}

/// The declared size of a good.
#[tactic(auto, unfolding(crate::specs::Goods::good_size))]
pub fn good_size(plan: &Plan, good: u32) -> u64
    ensures { result ≡ good_size plan.now good }
{
    let pairs = plan.pairs.as_slice().len();
    if (good as usize) < pairs {
        return pair_size(plan, PairId(good));
    }
    delivered_size(plan, TaskId((good as usize - pairs) as u32))
}

/// Whether a good lies at a place.
#[tactic(auto, unfolding(crate::specs::Goods::lies_at))]
pub fn lies_at(plan: &Plan, good: u32, place: u32) -> bool
    ensures { result ≡ lies_at plan.now good place }
{
    let pairs = plan.pairs.as_slice().len();
    if (good as usize) < pairs {
        return plan.is_at(PairId(good), SiteId(place));
    }
    let delivers = is_delivery(plan, TaskId((good as usize - pairs) as u32));
    delivers && place as usize == plan.sites.as_slice().len()
}

fn finds_pair(pairs: &[PairId], good: u32) -> bool
    ensures { result ≡ list_any (λ (q : PairId). q.0 == good) pairs.now }
{
    pairs.iter().any(|pair| pair.0 == good)
}

/// Whether a good is among some pairs.
#[tactic(auto, using(crate::proofs::NumbersLemmas::has_pair))]
fn is_among(pairs: &[PairId], good: u32) -> bool
    ensures { result ≡ has (pair_numbers pairs.now) good }
{
    finds_pair(pairs, good)
}

/// Whether a task makes a good.
#[tactic(auto, unfolding(crate::specs::Goods::makes))]
pub(crate) fn makes(plan: &Plan, task: TaskId, good: u32) -> bool
    requires { IsWithinLimits plan.now }
    ensures { result ≡ has (makes plan.now task.0) good }
{
    if is_delivery(plan, task) {
        return plan.pairs.as_slice().len() + task.0 as usize == good as usize;
    }
    is_among(plan.writes(task), good)
}

/// Whether a good is among some pairs in rising order.
fn is_among_rising(pairs: &[PairId], good: u32) -> bool
    requires { RisesFrom 0 (pair_numbers pairs.now) }
    ensures { result ≡ has (pair_numbers pairs.now) good }
{
    pairs.binary_search_by_key(&good, |pair| pair.0).is_ok()
}

/// Whether a task of a plan that lists goods in rising order makes a good.
#[tactic(auto, unfolding(crate::specs::Goods::makes))]
pub fn finds_made(plan: &Plan, task: TaskId, good: u32) -> bool
    requires limits { IsWithinLimits plan.now }
    requires rises { RisesFrom 0 (makes plan.now task.0) }
    ensures { result ≡ has (makes plan.now task.0) good }
{
    if is_delivery(plan, task) {
        return plan.pairs.as_slice().len() + task.0 as usize == good as usize;
    }
    is_among_rising(plan.writes(task), good)
}

/// The good that a task cleans.
pub fn cleaned_by(plan: &Plan, task: TaskId) -> Option<u32>
    ensures { MatchOption result ((g : ℕ) → cleans plan.now task.0 g ≡ false)
        (λ q. (g : ℕ) → cleans plan.now task.0 g ≡ (q == g)) }
{
    match plan.kind(task) {
        Some(TaskKind::Clean { pair }) => Some(pair.0),
        _ => None,
    }
}
