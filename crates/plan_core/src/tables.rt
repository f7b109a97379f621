//! Whether a plan's tables are proper.

ghost use Rattle.std.specs.Prelude.{◌≡◌, ◌^◌, [], map, nat_lt, IfOk};
ghost use Rattle.std.specs.Bool.{Decides};
ghost use Rattle.std.specs.List.{list_all};
ghost use Rattle.plan_core.specs.code.Tables.{are_few, are_in_range, are_unknown, tables_pass};
ghost use Rattle.plan_core.specs.code.Proper.{are_files_below, are_jobs_below, are_rising, is_before, is_job_in_range, is_kind_in_range, is_pair_in_range, is_site_below, is_source_below, is_target_below, rise_after, HasTables};
ghost use Rattle.plan_core.specs.declared.plan.PlanFile.{PlanFile};
ghost use Rattle.plan_core.specs.declared.plan.PlanSite.{PlanSite};
ghost use Rattle.plan_core.specs.declared.plan.Task.{Task};

use crate::plan::{Pair, Plan, PlanFile, PlanJob, PlanSite, Source, Target, TaskKind};
use indexmap::IndexSet;
use std::alloc::Global;
use values::{FileId, JobId, Memory, SiteId, Text};

fn is_few(count: usize) -> bool
    ensures { result ≡ nat_lt count (2 ^ 32) }
{
    count < 1 << 32
}

fn are_few(plan: &Plan) -> bool
    ensures { result ≡ are_few plan.now }
{
    is_few(plan.sites.as_slice().len())
        && is_few(plan.files.as_slice().len())
        && is_few(plan.jobs.as_slice().len())
        && is_few(plan.pairs.as_slice().len())
        && is_few(plan.tasks.as_slice().len())
}

fn is_pair_in_range(plan: &Plan, pair: &Pair) -> bool
    ensures { result ≡ is_pair_in_range plan.now pair.now }
{
    let sites = plan.sites.as_slice().len();
    let files = plan.files.as_slice().len();
    (pair.site.0 as usize) < sites && (pair.file.0 as usize) < files
}

fn is_site_below(sites: usize, site: Option<SiteId>) -> bool
    ensures { result ≡ is_site_below sites site }
{
    match site {
        Some(found) => (found.0 as usize) < sites,
        None => true,
    }
}

fn are_files_below(files: usize, listed: &[FileId]) -> bool
    ensures { result ≡ are_files_below files listed.now }
{
    listed.iter().all(|file| (file.0 as usize) < files)
}

fn is_job_in_range(plan: &Plan, job: &PlanJob) -> bool
    ensures { result ≡ is_job_in_range plan.now job.now }
{
    let sites = plan.sites.as_slice().len();
    let files = plan.files.as_slice().len();
    is_site_below(sites, job.site)
        && are_files_below(files, job.inputs.as_slice())
        && are_files_below(files, job.outputs.as_slice())
}

fn is_source_below(sites: usize, from: &Source) -> bool
    ensures { result ≡ is_source_below sites from.now }
{
    match from {
        Source::Pfn(_) => true,
        Source::Site(site) => (site.0 as usize) < sites,
    }
}

fn is_target_below(sites: usize, to: &Target) -> bool
    ensures { result ≡ is_target_below sites to.now }
{
    match to {
        Target::Site(site) => (site.0 as usize) < sites,
        Target::Delivery => true,
    }
}

fn are_jobs_below(jobs: usize, listed: &[JobId]) -> bool
    ensures { result ≡ are_jobs_below jobs listed.now }
{
    listed.iter().all(|job| (job.0 as usize) < jobs)
}

fn is_kind_in_range(plan: &Plan, kind: &TaskKind) -> bool
    ensures { result ≡ is_kind_in_range plan.now kind.now }
{
    let sites = plan.sites.as_slice().len();
    let jobs = plan.jobs.as_slice().len();
    match kind {
        TaskKind::Transfer { file, from, to } => {
            (file.0 as usize) < plan.files.as_slice().len()
                && is_source_below(sites, from)
                && is_target_below(sites, to)
        }
        TaskKind::Run { site, jobs: some } => {
            (site.0 as usize) < sites && are_jobs_below(jobs, some.as_slice())
        }
        TaskKind::Clean { pair } => (pair.0 as usize) < plan.pairs.as_slice().len(),
    }
}

fn are_pairs_in_range(plan: &Plan) -> bool
    ensures { result ≡ list_all (is_pair_in_range plan.now) plan.now.pairs }
{
    plan.pairs
        .as_slice()
        .iter()
        .all(|pair| is_pair_in_range(plan, pair))
}

fn are_jobs_in_range(plan: &Plan) -> bool
    ensures { result ≡ list_all (is_job_in_range plan.now) plan.now.jobs }
{
    plan.jobs
        .as_slice()
        .iter()
        .all(|job| is_job_in_range(plan, job))
}

fn are_kinds_in_range(plan: &Plan) -> bool
    ensures { result ≡ list_all (λ (t : Task). is_kind_in_range plan.now t.kind) plan.now.tasks }
{
    plan.tasks
        .as_slice()
        .iter()
        .all(|task| is_kind_in_range(plan, &task.kind))
}

fn are_in_range(plan: &Plan) -> bool
    ensures { result ≡ are_in_range plan.now }
{
    are_pairs_in_range(plan) && are_jobs_in_range(plan) && are_kinds_in_range(plan)
}

fn are_sites_distinct(alloc: Global, sites: &[PlanSite]) -> Result<bool, Memory>
    ensures { IfOk result (λ b. b ≡ are_unknown [] (map (λ (s : PlanSite). s.name) sites.now)) }
{
    let mut known: IndexSet<Text> = IndexSet::new(alloc);
    for site in sites {
        if known.contains(&site.name) {
            return Ok(false);
        }
        known.insert(site.name.copied(alloc)?)?;
    }
    Ok(true)
}

fn are_files_distinct(alloc: Global, files: &[PlanFile]) -> Result<bool, Memory>
    ensures { IfOk result (λ b. b ≡ are_unknown [] (map (λ (f : PlanFile). f.lfn) files.now)) }
{
    let mut known: IndexSet<Text> = IndexSet::new(alloc);
    for file in files {
        if known.contains(&file.lfn) {
            return Ok(false);
        }
        known.insert(file.lfn.copied(alloc)?)?;
    }
    Ok(true)
}

fn is_before(first: &Pair, second: &Pair) -> bool
    ensures { result ≡ is_before first.now second.now }
{
    first.site.0 < second.site.0 || (first.site.0 == second.site.0 && first.file.0 < second.file.0)
}

fn rise_after(first: Pair, rest: &[Pair]) -> bool
    ensures { result ≡ rise_after first rest.now }
{
    let mut last = first;
    for pair in rest {
        if !is_before(&last, pair) {
            return false;
        }
        last = *pair;
    }
    true
}

fn are_rising(pairs: &[Pair]) -> bool
    ensures { result ≡ are_rising pairs.now }
{
    match pairs {
        [] => true,
        [first, rest @ ..] => rise_after(*first, rest),
    }
}

fn passes(alloc: Global, plan: &Plan) -> Result<bool, Memory>
    ensures { IfOk result (λ b. b ≡ tables_pass plan.now) }
{
    if !are_few(plan) || !are_in_range(plan) || !are_rising(plan.pairs.as_slice()) {
        return Ok(false);
    }
    if !are_sites_distinct(alloc, plan.sites.as_slice())? {
        return Ok(false);
    }
    are_files_distinct(alloc, plan.files.as_slice())
}

/// Whether numbers are in range, names distinct and pairs in order.
#[tactic(auto, using(crate::proofs::TablesLemmas::tables_decided))]
pub fn has_tables(alloc: Global, plan: &Plan) -> Result<bool, Memory>
    ensures { IfOk result (λ b. Decides b (HasTables plan.now)) }
{
    passes(alloc, plan)
}
