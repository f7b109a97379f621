//! What the definitions come to.

ghost use Rattle.std.specs.Prelude.{◌≡◌, Decides, ◌≤◌, ◌+◌, ◌<◌, ℕ, List, [], ◌++◌, true, false, length, take};
ghost use Rattle.plan_core.specs.declared.plan.Plan.{Plan};
ghost use Rattle.plan_core.specs.Numbers.{has};
ghost use Rattle.plan_core.specs.code.Proper.{IsProper};
ghost use Rattle.plan_core.specs.Words.{count_pairs, is_clean, task_numbers};
ghost use Rattle.storage_simulation.specs.declared.ordered.Ordered.{Ordered};
ghost use Rattle.storage_simulation.specs.declared.standing.Held.{Held};
ghost use Rattle.storage_simulation.specs.Goods.{count_sites, goods, places};
ghost use Rattle.storage_simulation.specs.Standings.{sizes};
ghost use Rattle.storage_simulation.specs.Usage.{usage};
ghost use Rattle.run_record.specs.declared.entry.Cause.{Cause};
ghost use Rattle.run_record.specs.Events.{Again, Event, Regrant};
ghost use Rattle.lease_rules.specs.State.{State, after, now, opened};
ghost use Rattle.lease_rules.specs.Choice.{HasNoChoice, HaveParentsEnded, IsChoice, IsFresh};
ghost use Rattle.lease_rules.specs.Legal.{Allowed, IsComplete, IsOpen, Legal};
ghost use Rattle.lease_rules.specs.code.Law.{FitsFromStart, HasStorageLaws, IsConsistent, IsSafeState, IsSoundState};
ghost use Rattle.lease_rules.specs.Law.{reserved_at, stored_at};
ghost use Rattle.lease_rules.specs.code.Owning.{entries_by, is_open, is_open_after};
ghost use Rattle.lease_rules.specs.code.Reading.{IsPlain, IsPlainlyRead, IsRead};
ghost use Rattle.lease_rules.specs.code.Room.{entries_room, listed, sizes_room};

use plan_core::files_are_listed_by_pair;
use storage_simulation::{plain_policy_counts_pairs, proper_plans_keep_goods, steps_fit};

/// What storage promises of a proper plan.
pub fn storage_laws()
    ensures { (p : Plan) → IsProper p → HasStorageLaws p }
{
    proper_plans_keep_goods();
    files_are_listed_by_pair();
    steps_fit();
}

/// The order of every ordered plan fits from the start, and has all tasks.
pub fn ordered_plans_fit()
    ensures { (o : Ordered) → FitsFromStart o.plan (task_numbers o.tasks.items) }
{}

/// An order that fits from the start is Safe, and every allowed entry keeps it so.
pub fn allowed_entries_keep_safe()
    ensures start { (p : Plan) (order : List ℕ) → FitsFromStart p order → IsSoundState p (opened order) }
    ensures entries { (p : Plan) (s : State) (e : Event) → IsProper p → IsSoundState p s → Allowed p s e
        → IsSoundState p (after p s e) }
{
    storage_laws();
}

/// After every entry of a Legal record each place is within its bound, the state is Safe, and where no task runs and no
/// Fail stands the first task of rest is the Choice.
pub fn legal_records_are_safe()
    ensures always { (p : Plan) (order : List ℕ) (r : List Event) → IsProper p → FitsFromStart p order
        → Legal p order r → (k : ℕ) → IsSafeState p (now p order (take k r)) }
    ensures sums { (p : Plan) (held : ℕ → Held) (q : ℕ)
        → stored_at p held q + reserved_at p held q ≡ usage p (sizes held) [] q }
{
    storage_laws();
}

/// There is at most one Choice, and at most one task of a fresh order.
pub fn choice_is_one()
    ensures choice { (p : Plan) (s : State) (t u : ℕ) → IsChoice p s t → IsChoice p s u → t ≡ u }
    ensures fresh { (p : Plan) (s : State) (t u : ℕ) → IsFresh p s t → IsFresh p s u → t ≡ u }
{}

/// Where there is neither a Choice nor a Fail, no Clean of rest has all its parents ended: a fresh order never begins
/// with one.
pub fn no_clean_begins_afresh()
    ensures { (p : Plan) (s : State) (t : ℕ) → IsProper p → IsSoundState p s → s.failing ≡ false
        → HasNoChoice p s → has s.rest t ≡ true → is_clean p t ≡ true → HaveParentsEnded p s t → ⊥ }
{
    storage_laws();
}

/// Each allowed entry leaves room for one entry less, and for its sizes less.
pub fn entries_are_few()
    ensures entries { (p : Plan) (s : State) (e : Event) → IsConsistent p s → Allowed p s e
        → entries_room p (after p s e) + 1 ≤ entries_room p s }
    ensures sizes { (p : Plan) (s : State) (e : Event) → IsConsistent p s → Allowed p s e
        → sizes_room p (after p s e) + length (listed e) ≤ sizes_room p s }
    ensures consistent { (p : Plan) (s : State) (e : Event) → IsProper p → IsConsistent p s → Allowed p s e
        → IsConsistent p (after p s e) }
{
    storage_laws();
}

/// The state of a Legal record says of each task, of each good and of failures what the list of its entries says.
pub fn records_read()
    ensures { (p : Plan) (order : List ℕ) (r : List Event) → IsProper p → FitsFromStart p order
        → Legal p order r → IsRead p r (now p order r) }
{
    storage_laws();
}

/// A worker's own entries tell which tasks are open for it.
pub fn own_entries_tell_open_tasks()
    ensures decides { (s : State) (w t : ℕ) → Decides (is_open s w t) (IsOpen s w t) }
    ensures entries { (p : Plan) (order : List ℕ) (r : List Event) (w t : ℕ) → IsProper p
        → FitsFromStart p order → Legal p order r
        → is_open (now p order r) w t ≡ is_open_after t false (entries_by w r) }
{
    storage_laws();
}

/// Nothing follows a complete record, and after a Fail one stands in every longer record.
pub fn over_records_end()
    ensures complete { (p : Plan) (order : List ℕ) (r more : List Event) → IsProper p → FitsFromStart p order
        → Legal p order (r ++ more) → IsComplete p (now p order r) → more ≡ [] }
    ensures failing { (p : Plan) (order : List ℕ) (r more : List Event) → (now p order r).failing ≡ true
        → (now p order (r ++ more)).failing ≡ true }
{
    storage_laws();
}

/// Under the plain policy no Again and no Regrant is allowed, places are sites, goods are pairs, and rest
/// is the order without granted tasks and without swept Cleans.
pub fn plain_policy_tries_once()
    ensures again { (p : Plan) (s : State) (w t : ℕ) (c : Cause) (ns : List ℕ) → IsPlain p
        → Allowed p s (Again w t c ns) → ⊥ }
    ensures regrant { (p : Plan) (s : State) (w t : ℕ) → IsPlain p → Allowed p s (Regrant w t) → ⊥ }
    ensures places { (p : Plan) → IsPlain p → (places p ≡ count_sites p) × (goods p ≡ count_pairs p) }
    ensures reads { (p : Plan) (order : List ℕ) (r : List Event) → IsProper p → IsPlain p
        → FitsFromStart p order → Legal p order r → IsPlainlyRead order r (now p order r) }
{
    storage_laws();
    plain_policy_counts_pairs();
}
