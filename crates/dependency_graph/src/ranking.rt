//! The kept jobs in order of (level, number).

ghost use Rattle.std.specs.Prelude.{◌≡◌, ◌≤◌, ℕ, length, IfOk};
ghost use Rattle.dependency_graph.specs.Levels.{is_kept, level};
ghost use Rattle.dependency_graph.specs.code.Ranking.{leveled, numbers_in};
ghost use Rattle.dependency_graph.specs.Ranking.{IsRanked};

use std::alloc::Global;
use values::Memory;

fn is_kept(kept: &[bool], job: u32) -> bool
    ensures { result ≡ is_kept kept.now job }
{
    match kept.get(job as usize) {
        Some(found) => *found,
        None => false,
    }
}

fn level_of(levels: &[u32], job: u32) -> u32
    ensures { result ≡ level levels.now job }
{
    match levels.get(job as usize) {
        Some(found) => *found,
        None => 0,
    }
}

/// The kept jobs by number, each under its level.
#[tactic(auto, using(crate::proofs::RankingLemmas::leveled_kept, crate::proofs::RankingLemmas::leveled_dropped))]
fn leveled(alloc: Global, kept: &[bool], levels: &[u32]) -> Result<Vec<(u32, u32)>, Memory>
    requires few { length kept.now ≤ 10000 }
    ensures { IfOk result (λ v. v.items ≡ leveled kept.now levels.now (length kept.now)) }
{
    let mut jobs = Vec::new(alloc);
    for job in 0..kept.len() {
        if is_kept(kept, job as u32) {
            jobs.push((level_of(levels, job as u32), job as u32))?;
        }
    }
    Ok(jobs)
}

fn numbers_in(alloc: Global, jobs: &[(u32, u32)]) -> Result<Vec<u32>, Memory>
    ensures { IfOk result (λ v. v.items ≡ numbers_in jobs.now) }
{
    let numbers: Vec<u32> = jobs.iter().map(|job| job.1).collect(alloc)?;
    Ok(numbers)
}

/// The numbers of the kept jobs, in order of (level, number). There is one value of `kept` and of `levels` for each job.
pub fn ranked(alloc: Global, kept: &[bool], levels: &[u32]) -> Result<Vec<u32>, Memory>
    requires few { length kept.now ≤ 10000 }
    ensures { IfOk result (λ v. IsRanked kept.now levels.now v.items) }
{
    let mut jobs = leveled(alloc, kept, levels)?;
    jobs.sort()?;
    let numbers = numbers_in(alloc, jobs.as_slice())?;
    Ok(numbers)
}
