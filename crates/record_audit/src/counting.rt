//! The sums of a record, entry by entry.

ghost use Rattle.std.specs.Prelude.{◌≡◌, ◌≤◌, ◌<◌, ℕ, IfOk, get_or, length, max};
ghost use Rattle.plan_core.specs.Words.{retries, task_numbers};
ghost use Rattle.storage_simulation.specs.code.Standings.{at_in};
ghost use Rattle.lease_rules.specs.Legal.{Legal};
ghost use Rattle.record_audit.specs.Sums.{AreSums};

use crate::holdings::Holdings;
use crate::law::{allowed_entries_are_sized, legal_records_are_short};
use crate::sums::Statistics;
use lease_rules::ordered_plans_fit;
use run_record::Record;
use std::alloc::Global;
use storage_simulation::Ordered;
use values::Memory;

/// Raises each site's peak to what is held there.
fn raise(holdings: &Holdings, peaks: &mut Vec<u64>)
    ensures long { length peaks.new.items ≡ length peaks.old.items }
    ensures raised { (q : ℕ) → q < length peaks.old.items
        → get_or peaks.new.items q 0 ≡ max (get_or peaks.old.items q 0) (at_in 0 holdings.now.sums.items q) }
{
    for site in 0..peaks.len() {
        let held = holdings.at(site);
        if peaks[site] < held {
            peaks[site] = held;
        }
    }
}

/// What the entries of a legal record come to. It takes memory once, before the first entry.
pub fn statistics(alloc: Global, ordered: &Ordered, history: &Record) -> Result<Statistics, Memory>
    requires retries { retries ordered.now.plan ≤ 10 }
    requires legal { Legal ordered.now.plan (task_numbers ordered.now.tasks.items) history.now.events }
    ensures { IfOk result (AreSums ordered.now.plan
        (task_numbers ordered.now.tasks.items) history.now.events) }
{
    // Laws for the proof: they do nothing.
    ordered_plans_fit();
    legal_records_are_short();
    allowed_entries_are_sized();
    let plan = ordered.plan();
    let mut holdings = Holdings::none(alloc, plan)?;
    let mut sums = Statistics::none(alloc, plan.sites.as_slice().len())?;
    for k in 0..history.len() {
        let entry = history.entry(k);
        holdings.follow(plan, &entry);
        sums.count(&entry);
        raise(&holdings, &mut sums.peaks);
    }
    Ok(sums)
}
