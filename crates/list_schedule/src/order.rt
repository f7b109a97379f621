//! The kept jobs by falling rank, and then by number.

ghost use Rattle.std.specs.Prelude.{◌≡◌, ◌≤◌, ◌^◌, ℕ, length, map, IfOk};
ghost use Rattle.dependency_graph.specs.Graph.{numbers};
ghost use Rattle.dependency_graph.specs.Levels.{is_kept};
ghost use Rattle.dependency_graph.specs.code.Ranking.{leveled, numbers_in};
ghost use Rattle.list_schedule.specs.Ranks.{rank, IsRankOrder};
ghost use Rattle.list_schedule.specs.code.Tables.{depths};

use std::alloc::Global;
use values::{JobId, Memory};

/// No rank is greater.
const GREATEST: u128 = 1 << 80;

fn is_kept(kept: &[bool], job: u32) -> bool
    ensures { result ≡ is_kept kept.now job }
{
    match kept.get(job as usize) {
        Some(found) => *found,
        None => false,
    }
}

/// The kept jobs by number, each under how far its rank is below the greatest.
#[tactic(auto, using(crate::proofs::OrderLemmas::kept_more, crate::proofs::OrderLemmas::dropped_more))]
fn by_depth(alloc: Global, kept: &[bool], ranks: &[u128]) -> Result<Vec<(u128, u32)>, Memory>
    requires few { length kept.now ≤ 10000 }
    requires long { length ranks.now ≡ length kept.now }
    requires small { (a : ℕ) → rank ranks.now a ≤ 2 ^ 80 }
    ensures { IfOk result (λ v. v.items ≡ leveled kept.now (depths ranks.now) (length kept.now)) }
{
    let mut jobs = Vec::new(alloc);
    for job in 0..kept.len() {
        if is_kept(kept, job as u32) {
            jobs.push((GREATEST - ranks[job], job as u32))?;
        }
    }
    Ok(jobs)
}

fn jobs_in(alloc: Global, jobs: &[(u128, u32)]) -> Result<Vec<JobId>, Memory>
    ensures { IfOk result (λ v. numbers v.items ≡ numbers_in jobs.now) }
{
    let mut ids = Vec::with_capacity(alloc, jobs.len())?;
    for job in jobs {
        ids.push(JobId(job.1))?;
    }
    Ok(ids)
}

/// The kept jobs by falling rank, and then by number.
pub fn by_rank(alloc: Global, kept: &[bool], ranks: &[u128]) -> Result<Vec<JobId>, Memory>
    requires few { length kept.now ≤ 10000 }
    requires long { length ranks.now ≡ length kept.now }
    requires small { (a : ℕ) → rank ranks.now a ≤ 2 ^ 80 }
    ensures { IfOk result (λ v. IsRankOrder kept.now ranks.now (numbers v.items)) }
{
    let mut jobs = by_depth(alloc, kept, ranks)?;
    jobs.sort()?;
    let order = jobs_in(alloc, jobs.as_slice())?;
    Ok(order)
}
