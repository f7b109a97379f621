//! When what a job reads is at a site.

ghost use Rattle.std.specs.Prelude.{◌≡◌, ◌+◌, ◌<◌, ◌≤◌, ◌^◌, ℕ, Bool, true, false, max, length, All};
ghost use Rattle.values.specs.declared.numbers.JobId.{JobId};
ghost use Rattle.list_schedule.specs.Schedule.{is_site};
ghost use Rattle.list_schedule.specs.code.Arrivals.{latest_at, counted, elsewhere, finish_of};

use values::{JobId, SiteId};

/// The latest arrival, with the site from which it comes, and the latest from the other sites.
#[derive(Clone, Copy)]
pub struct Latest {
    pub site: Option<SiteId>,
    pub first: u128,
    pub second: u128,
}

fn is_same(one: Option<SiteId>, other: Option<SiteId>) -> bool
    ensures same { result ≡ true → (s : ℕ) → is_site s one ≡ is_site s other }
    ensures differ { result ≡ false → (s : ℕ) → is_site s one ≡ true → is_site s other ≡ false }
{
    match (one, other) {
        (Some(a), Some(b)) => a.0 == b.0,
        (None, None) => true,
        _ => false,
    }
}

/// One arrival more, if it counts.
#[tactic(auto, using(crate::proofs::ArrivalLemmas::note_dropped, crate::proofs::ArrivalLemmas::note_same, crate::proofs::ArrivalLemmas::note_first, crate::proofs::ArrivalLemmas::note_second))]
fn note(latest: Latest, counts: bool, site: Option<SiteId>, value: u128) -> Latest
    requires { latest.second ≤ latest.first }
    ensures each { (s : ℕ)
        → latest_at result s ≡ max (latest_at latest s) (counted counts site value s) }
    ensures in_order { result.second ≤ result.first }
    ensures small { (n : ℕ) → latest.first ≤ n → value ≤ n → result.first ≤ n }
{
    if !counts {
        return latest;
    }
    if is_same(latest.site, site) {
        return Latest {
            site: latest.site,
            first: latest.first.max(value),
            second: latest.second,
        };
    }
    if latest.first < value {
        return Latest {
            site,
            first: value,
            second: latest.first,
        };
    }
    Latest {
        site: latest.site,
        first: latest.first,
        second: latest.second.max(value),
    }
}

fn added(finish: u128, seconds: u64) -> u128
    requires { finish ≤ 2 ^ 90 }
    ensures sum { result ≡ finish + seconds }
    ensures small { result < finish + 2 ^ 64 }
{
    finish + seconds as u128
}

/// The latest arrivals from some jobs, of which the moves stand beside them.
pub fn arrivals_of(
    kept: &[bool],
    sites: &[Option<SiteId>],
    finishes: &[u128],
    jobs: &[JobId],
    moves: &[u64],
) -> Latest
    requires in_range { All (λ (p : JobId). p.0 < length kept.now) jobs.now }
    requires sites { length sites.now ≡ length kept.now }
    requires finishes { length finishes.now ≡ length kept.now }
    requires one_each { length moves.now ≡ length jobs.now }
    requires fits { (a : ℕ) → finish_of finishes.now a ≤ 2 ^ 90 }
    ensures each { (s : ℕ)
        → latest_at result s ≡ elsewhere kept.now sites.now finishes.now s jobs.now moves.now }
    ensures small { (n : ℕ) → ((a : ℕ) → finish_of finishes.now a ≤ n) → result.first ≤ n + 2 ^ 64 }
    ensures in_order { result.second ≤ result.first }
{
    let mut latest = Latest {
        site: None,
        first: 0,
        second: 0,
    };
    for (place, job) in jobs.iter().enumerate() {
        let number = job.0 as usize;
        let value = added(finishes[number], moves[place]);
        latest = note(latest, kept[number], sites[number], value);
    }
    latest
}
