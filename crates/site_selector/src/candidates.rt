//! The site of one job.

ghost use Rattle.std.specs.Prelude.{◌≡◌, ◌<◌, [], length, IfOk, option_map};
ghost use Rattle.std.specs.List.{list_any};
ghost use Rattle.site_selector.specs.Offers.{sites_of};
ghost use Rattle.site_selector.specs.Candidates.{is_allowed, is_named, candidates, unknown_site, round_robin_site, selected_site};
ghost use Rattle.site_selector.specs.code.Candidates.{listed_from, IsAnswer, candidates_of, offered, AreFound};

use crate::offers::Offers;
use plan_request::Execution;
use std::alloc::Global;
use values::{JobId, Memory, SelectFault, SiteId, Text};
use workflow_core::Job;

fn is_allowed(pinned: &Option<Text>, name: &Text) -> bool
    ensures { result ≡ is_allowed pinned.now name.now }
{
    match pinned {
        Some(site) => site == name,
        None => true,
    }
}

/// The numbers of the sites that have the transformation and that the job isn't pinned away from.
fn listed(
    alloc: Global,
    execute: &[Execution],
    flags: &[bool],
    pinned: &Option<Text>,
) -> Result<Vec<u32>, Memory>
    requires few { length execute.now < 65 }
    ensures { IfOk result (λ v. v.items ≡ listed_from flags.now pinned.now 0 execute.now) }
{
    let mut sites = Vec::new(alloc);
    for (site, execution) in execute.iter().enumerate() {
        let has_it = match flags.get(site) {
            Some(flag) => *flag,
            None => false,
        };
        if has_it && is_allowed(pinned, &execution.site) {
            sites.push(site as u32)?;
        }
    }
    Ok(sites)
}

fn candidates(alloc: Global, offers: &Offers<'_>, job: &Job) -> Result<Vec<u32>, Memory>
    requires few { length offers.now.execute < 65 }
    ensures { IfOk result (λ v. v.items
        ≡ candidates offers.now.execute (sites_of offers.now.entries job.now.transformation) job.now.pinned) }
{
    match offers.of(&job.transformation) {
        Some(flags) => {
            let sites = listed(alloc, offers.execute(), flags, &job.pinned)?;
            Ok(sites)
        }
        None => Ok(Vec::new(alloc)),
    }
}

fn is_execution_site(execute: &[Execution], name: &Text) -> bool
    ensures { result ≡ list_any (is_named name.now) execute.now }
{
    execute.iter().any(|execution| *name == execution.site)
}

fn unknown_site<'a>(execute: &[Execution], pinned: &'a Option<Text>) -> Option<&'a Text>
    ensures { option_map (λ n. n.now) result ≡ unknown_site execute.now pinned.now }
{
    match pinned {
        Some(name) => {
            if is_execution_site(execute, name) {
                None
            } else {
                Some(name)
            }
        }
        None => None,
    }
}

fn chosen(job: JobId, turn: usize, candidates: &[u32]) -> Result<SiteId, SelectFault>
    ensures { IsAnswer (round_robin_site job.0 turn candidates.now) result }
{
    if candidates.is_empty() {
        return Err(SelectFault::NoTransformation(job));
    }
    Ok(SiteId(candidates[turn % candidates.len()]))
}

fn offered(job: JobId, candidates: Vec<u32>) -> Result<Vec<u32>, SelectFault>
    ensures { AreFound (offered job.0 candidates.items) result }
{
    if candidates.is_empty() {
        return Err(SelectFault::NoTransformation(job));
    }
    Ok(candidates)
}

/// The sites where a job can run, in order; or why there is none.
pub fn candidates_of(
    alloc: Global,
    offers: &Offers<'_>,
    number: u32,
    job: &Job,
) -> Result<Vec<u32>, SelectFault>
    requires few { length offers.now.execute < 65 }
    ensures { AreFound (candidates_of offers.now.execute offers.now.entries number job.now) result }
{
    if let Some(name) = unknown_site(offers.execute(), &job.pinned) {
        return Err(SelectFault::NoSite(JobId(number), name.copied(alloc)?));
    }
    let candidates = candidates(alloc, offers, job)?;
    offered(JobId(number), candidates)
}

/// The site of a job at its turn.
pub fn site_of(
    alloc: Global,
    offers: &Offers<'_>,
    turn: usize,
    number: u32,
    job: &Job,
) -> Result<SiteId, SelectFault>
    requires few { length offers.now.execute < 65 }
    ensures { IsAnswer (selected_site offers.now.execute offers.now.entries turn number job.now) result }
{
    if let Some(name) = unknown_site(offers.execute(), &job.pinned) {
        return Err(SelectFault::NoSite(JobId(number), name.copied(alloc)?));
    }
    let candidates = candidates(alloc, offers, job)?;
    chosen(JobId(number), turn, candidates.as_slice())
}
