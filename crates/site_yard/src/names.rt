//! Names and sizes of a plan, by number.

ghost use Rattle.std.specs.Prelude.{◌≡◌, ◌==◌, false, MatchOption, Some};
ghost use Rattle.std.specs.List.{list_any};
ghost use Rattle.plan_core.specs.declared.plan.Pair.{Pair};
ghost use Rattle.plan_core.specs.declared.plan.TaskKind.TheVariants.{Clean};
ghost use Rattle.plan_core.specs.Words.{declared, is_clean, kind};
ghost use Rattle.storage_simulation.specs.Goods.{or_zero};
ghost use Rattle.lease_rules.specs.code.Storing.{pair_limit};
ghost use Rattle.plan_core.specs.Names.{file_name, pair_file, pair_file_name, pair_site, pair_site_name, site_name};
ghost use Rattle.plan_core.specs.code.Names.{is_used};

use outside::{FileId, PairId, SiteId, TaskId};
use plan_core::{Plan, TaskKind};

/// The name of a site.
#[tactic(auto, unfolding(plan_core::specs::Names::site_name))]
pub(crate) fn site_name(plan: &Plan, site: SiteId) -> &str
    ensures { result.now ≡ site_name plan.now site.0 }
{
    match plan.sites.as_slice().get(site.0 as usize) {
        Some(found) => found.name.as_str(),
        None => "",
    }
}

/// The name of a file.
#[tactic(auto, unfolding(plan_core::specs::Names::file_name))]
pub(crate) fn file_name(plan: &Plan, file: FileId) -> &str
    ensures { result.now ≡ file_name plan.now file.0 }
{
    match plan.files.as_slice().get(file.0 as usize) {
        Some(found) => found.lfn.as_str(),
        None => "",
    }
}

#[tactic(auto, unfolding(plan_core::specs::Names::pair_site))]
fn pair_site(plan: &Plan, pair: PairId) -> SiteId
    ensures { result.0 ≡ pair_site plan.now pair.0 }
{
    match plan.pair(pair) {
        Some(found) => found.site,
        None => SiteId(0),
    }
}

#[tactic(auto, unfolding(plan_core::specs::Names::pair_file))]
pub(crate) fn pair_file(plan: &Plan, pair: PairId) -> FileId
    ensures { result.0 ≡ pair_file plan.now pair.0 }
{
    match plan.pair(pair) {
        Some(found) => found.file,
        None => FileId(0),
    }
}

/// The name of a pair's site.
pub(crate) fn pair_site_name(plan: &Plan, pair: PairId) -> &str
    ensures { result.now ≡ pair_site_name plan.now pair.0 }
{
    site_name(plan, pair_site(plan, pair))
}

/// The name of a pair's file.
pub(crate) fn pair_file_name(plan: &Plan, pair: PairId) -> &str
    ensures { result.now ≡ pair_file_name plan.now pair.0 }
{
    file_name(plan, pair_file(plan, pair))
}

/// The declared size of a file in bytes, 0 where there is none.
pub(crate) fn declared_size(plan: &Plan, file: FileId) -> u64
    ensures { result ≡ or_zero (declared plan.now file.0) }
{
    match plan.declared(file) {
        Some(size) => size,
        None => 0,
    }
}

/// The declared size of a pair's file in bytes, 0 where there is none.
pub(crate) fn pair_limit(plan: &Plan, pair: PairId) -> u64
    ensures { result ≡ pair_limit plan.now pair.0 }
{
    declared_size(plan, pair_file(plan, pair))
}

/// Whether a site has a pair.
#[tactic(auto, unfolding(plan_core::specs::code::Names::is_used))]
pub(crate) fn is_used(plan: &Plan, site: SiteId) -> bool
    ensures { result ≡ is_used plan.now site.0 }
{
    plan.pairs
        .as_slice()
        .iter()
        .any(|pair| pair.site.0 == site.0)
}

/// The pair that a Clean removes.
pub(crate) fn swept_pair(plan: &Plan, task: TaskId) -> Option<PairId>
    ensures { MatchOption result (is_clean plan.now task.0 ≡ false)
        (λ q. kind plan.now task.0 ≡ Some (Clean q)) }
{
    match plan.kind(task) {
        Some(TaskKind::Clean { pair }) => Some(*pair),
        _ => None,
    }
}
