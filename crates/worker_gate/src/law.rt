//! What the definitions come to.

ghost use Rattle.std.specs.Prelude.{◌≡◌, ℕ, List, []};
ghost use Rattle.plan_core.specs.declared.plan.Plan.{Plan};
ghost use Rattle.plan_core.specs.code.Proper.{IsProper};
ghost use Rattle.lease_rules.specs.State.{now};
ghost use Rattle.worker_gate.specs.code.Alone.{NoneOpen};
ghost use Rattle.worker_gate.specs.code.Law.{HasLeaseLaws};

use lease_rules::{choice_is_one, entries_are_few};

/// What lease_book promises of a proper plan.
pub(crate) fn lease_laws()
    ensures { (p : Plan) → IsProper p → HasLeaseLaws p }
{
    choice_is_one();
    entries_are_few();
}

/// In a record without entries no task is open.
pub fn empty_records_have_none_open()
    ensures { (p : Plan) (order : List ℕ) → NoneOpen (now p order []) }
{}
