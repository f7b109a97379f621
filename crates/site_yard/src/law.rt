//! What the definitions come to.

ghost use Rattle.std.specs.Prelude.{ℕ, ◌++◌, List, Some};
ghost use Rattle.values.specs.Apply.{Apply};
ghost use Rattle.outside.specs.declared.counts.Counts.{Counts};
ghost use Rattle.outside.specs.declared.store.Store.{Store};
ghost use Rattle.plan_core.specs.declared.plan.Plan.{Plan};
ghost use Rattle.plan_core.specs.code.Proper.{IsProper};
ghost use Rattle.run_record.specs.Events.{Event};
ghost use Rattle.lease_rules.specs.code.Law.{FitsFromStart};
ghost use Rattle.lease_rules.specs.Legal.{Legal};
ghost use Rattle.site_yard.specs.code.Kept.{IsKept};
ghost use Rattle.site_yard.specs.code.Law.{AgreesSince, HasPlanLaws, HasRecordLaws};

use lease_rules::{allowed_entries_keep_safe, records_read};
use plan_core::{
    carried_is_carried_along, each_pair_has_one_writer, files_are_listed_by_pair,
    numbers_are_in_range, pairs_stand_once, parents_come_before, rising_lists_are_one,
};

/// What plan_core promises of a proper plan.
pub fn plan_laws()
    ensures { (p : Plan) → IsProper p → HasPlanLaws p }
{
    carried_is_carried_along();
    each_pair_has_one_writer();
    files_are_listed_by_pair();
    numbers_are_in_range();
    pairs_stand_once();
    parents_come_before();
    rising_lists_are_one();
}

/// What lease_book promises of the records of an order that fits from the start.
pub(crate) fn record_laws()
    ensures { (p : Plan) (order : List ℕ) → IsProper p → FitsFromStart p order → HasRecordLaws p order }
{
    allowed_entries_keep_safe();
    records_read();
}

/// A store that a yard keeps shows the record.
pub fn kept_stores_show_records()
    ensures { (apply : Apply) (p : Plan) (order : List ℕ) (first r : List Event) (s m : Store)
        (faults misses : ℕ) (now : Counts) → IsProper p → FitsFromStart p order → Legal p order (first ++ r)
        → IsKept apply p order first r (Some s) m faults misses now → AgreesSince apply p first r m s }
{
    plan_laws();
    record_laws();
}
