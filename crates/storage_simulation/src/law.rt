//! What the definitions come to.

ghost use Rattle.std.specs.Prelude.{◌≡◌, ◌<◌, ◌≤◌, ◌*◌, ◌^◌, ℕ, List, Some, length};
ghost use Rattle.values.specs.code.Policy.{plain};
ghost use Rattle.plan_core.specs.declared.plan.Plan.{Plan};
ghost use Rattle.plan_core.specs.code.Proper.{IsProper};
ghost use Rattle.plan_core.specs.Words.{bound, count_pairs, output_bound};
ghost use Rattle.storage_simulation.specs.code.Goods.{IsWithinLimits};
ghost use Rattle.storage_simulation.specs.Goods.{count_sites, goods, place_bound, places};
ghost use Rattle.storage_simulation.specs.code.Law.{KeepsGoods, output_usage, site_usage};
ghost use Rattle.storage_simulation.specs.Usage.{usage};

use plan_core::{files_are_listed_by_pair, numbers_are_in_range, parents_come_before};

/// In a proper plan each good has one maker, and its Clean comes after it.
pub fn proper_plans_keep_goods()
    ensures { (p : Plan) → IsProper p → KeepsGoods p }
{
    parents_come_before();
    files_are_listed_by_pair();
    numbers_are_in_range();
}

/// A proper plan has few pairs where it has few sites and files.
pub fn pairs_are_few()
    ensures { (p : Plan) → IsProper p → count_sites p ≤ 64 → length p.files ≤ 50000
        → count_pairs p ≤ 64 * 50000 }
{}

/// Within the limits no sum of sizes reaches 2^62.
pub fn sums_are_small()
    ensures { (p : Plan) (size : ℕ → ℕ) (front : List ℕ) (s : ℕ) → IsWithinLimits p
        → ((g : ℕ) → size g ≤ 2 ^ 40) → usage p size front s < 2 ^ 62 }
{}

/// Usage of a site is the sum over its pairs, and usage of the output the sum over the deliveries.
pub fn usage_is_a_sum()
    ensures site { (p : Plan) (size : ℕ → ℕ) (front : List ℕ) (s : ℕ) → IsProper p → s < count_sites p
        → usage p size front s ≡ site_usage p size front s }
    ensures output { (p : Plan) (size : ℕ → ℕ) (front : List ℕ) (b : ℕ) → IsProper p
        → output_bound p ≡ Some b → usage p size front (count_sites p) ≡ output_usage p size front }
{
    proper_plans_keep_goods();
}

/// Under the plain policy the goods are the pairs, the places are the sites, and usage is the sum over a site's pairs.
pub fn plain_policy_counts_pairs()
    ensures goods { (p : Plan) → p.policy ≡ plain → goods p ≡ count_pairs p }
    ensures places { (p : Plan) → p.policy ≡ plain → places p ≡ count_sites p }
    ensures bounds { (p : Plan) (s : ℕ) → s < count_sites p → place_bound p s ≡ bound p s }
    ensures usage { (p : Plan) (size : ℕ → ℕ) (front : List ℕ) (s : ℕ) → IsProper p → p.policy ≡ plain
        → usage p size front s ≡ site_usage p size front s }
{}
