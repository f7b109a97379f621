//! The site of one job.

ghost use Rattle.std.specs.Prelude.{◌≡◌, ◌+◌, ◌<◌, ◌≤◌, ◌^◌, ℕ, cond, ltb, length, slice_index_or, All};
ghost use Rattle.list_schedule.specs.code.Arrivals.{latest_at, start_at, IsEarliest};

use crate::arrivals::Latest;

/// A site with a job's start and finish there.
#[derive(Clone, Copy)]
pub struct Slot {
    pub site: u32,
    pub start: u128,
    pub finish: u128,
}

/// The latest arrival from any other site.
fn latest_at(latest: &Latest, site: u32) -> u128
    ensures { result ≡ latest_at latest.now site }
{
    match latest.site {
        Some(from) => if from.0 == site {
            latest.second
        } else {
            latest.first
        },
        None => latest.first,
    }
}

fn slot_at(site: u32, time: u64, free: &[u128], latest: &Latest) -> Slot
    requires site { site < length free.now }
    requires small { slice_index_or free.now site 0 < 2 ^ 100 }
    requires first { latest.now.first < 2 ^ 100 }
    requires second { latest.now.second < 2 ^ 100 }
    ensures site { result.site ≡ site }
    ensures within { result.site < length free.now }
    ensures start { result.start ≡ start_at free.now latest.now site }
    ensures finish { result.finish ≡ start_at free.now latest.now site + time }
    ensures small { (n : ℕ) → ((s : ℕ) → slice_index_or free.now s 0 ≤ n) → latest.now.first ≤ n
        → latest.now.second ≤ n → result.finish ≤ n + 2 ^ 64 }
{
    let start = free[site as usize].max(latest_at(latest, site));
    Slot {
        site,
        start,
        finish: start + time as u128,
    }
}

/// The one of two slots that ends first.
fn sooner(best: Slot, next: Slot) -> Slot
    ensures same { result ≡ cond (ltb next.finish best.finish) next best }
    ensures small { (n : ℕ) → best.finish ≤ n → next.finish ≤ n → result.finish ≤ n }
    ensures site { (n : ℕ) → best.site < n → next.site < n → result.site < n }
{
    if next.finish < best.finish {
        next
    } else {
        best
    }
}

/// The first of some sites with the least finish. The times at them stand beside them.
pub fn earliest(candidates: &[u32], times: &[u64], free: &[u128], latest: &Latest) -> Slot
    requires some { 0 < length candidates.now }
    requires in_range { All (λ s. s < length free.now) candidates.now }
    requires one_each { length times.now ≡ length candidates.now }
    requires small { (s : ℕ) → slice_index_or free.now s 0 < 2 ^ 100 }
    requires first { latest.now.first < 2 ^ 100 }
    requires second { latest.now.second < 2 ^ 100 }
    ensures earliest { IsEarliest candidates.now times.now free.now latest.now result
        (length candidates.now) }
    ensures small { (n : ℕ) → ((s : ℕ) → slice_index_or free.now s 0 ≤ n) → latest.now.first ≤ n
        → latest.now.second ≤ n → result.finish ≤ n + 2 ^ 64 }
    ensures site { result.site < length free.now }
{
    let mut best = slot_at(candidates[0], times[0], free, latest);
    for place in 1..candidates.len() {
        let next = slot_at(candidates[place], times[place], free, latest);
        best = sooner(best, next);
    }
    best
}
