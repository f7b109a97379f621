//! The file of a pair, and its declared size.

ghost use Rattle.std.specs.Prelude.{◌≡◌};
ghost use Rattle.lease_rules.specs.code.Storing.{pair_limit};
ghost use Rattle.plan_core.specs.Names.{pair_file};

use outside::{FileId, PairId};
use plan_core::Plan;

/// The file of a pair.
#[tactic(auto, unfolding(plan_core::specs::Names::pair_file))]
pub(crate) fn pair_file(plan: &Plan, pair: PairId) -> FileId
    ensures { result.0 ≡ pair_file plan.now pair.0 }
{
    match plan.pair(pair) {
        Some(found) => found.file,
        None => FileId(0),
    }
}

/// The declared size of a pair's file in bytes, 0 where there is none.
pub(crate) fn pair_limit(plan: &Plan, pair: PairId) -> u64
    ensures { result ≡ pair_limit plan.now pair.0 }
{
    match plan.declared(pair_file(plan, pair)) {
        Some(size) => size,
        None => 0,
    }
}
