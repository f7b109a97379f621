//! What follows from the definition of Order.

ghost use Rattle.std.specs.Prelude.{◌≡◌, ◌<◌, ℕ, Bool, true, List, [], length, Some, None};
ghost use Rattle.plan_core.specs.declared.plan.Plan.{Plan};
ghost use Rattle.plan_core.specs.Numbers.{has};
ghost use Rattle.plan_core.specs.code.Proper.{IsProper};
ghost use Rattle.plan_core.specs.Words.{count_tasks};
ghost use Rattle.storage_simulation.specs.declared.fitting.Exceeds.{Exceeds};
ghost use Rattle.storage_simulation.specs.Fitting.{Fits};
ghost use Rattle.storage_simulation.specs.Following.{AreOnce};
ghost use Rattle.storage_simulation.specs.code.Law.{KeepsGoods};
ghost use Rattle.storage_simulation.specs.OrderLaw.{order_by, stated_order};
ghost use Rattle.storage_simulation.specs.code.Ordering.{IsExceeds, IsOpen, IsOrder};
ghost use Rattle.storage_simulation.specs.Ordering.{Progress, is_done, size};
ghost use Rattle.storage_simulation.specs.Standings.{waits};
ghost use Rattle.storage_simulation.specs.Usage.{IsWithin};

use plan_core::{parents_come_before, some_task_is_first};

/// There is at most one order, at most one Exceeds, and never both.
pub fn order_is_determined()
    ensures order { (p : Plan) (st : Progress) (ts us : List ℕ) → IsOrder p st ts → IsOrder p st us
        → ts ≡ us }
    ensures exceeds { (p : Plan) (st : Progress) (e f : Exceeds) → IsExceeds p st e → IsExceeds p st f
        → e ≡ f }
    ensures not_both { (p : Plan) (st : Progress) (ts : List ℕ) (e : Exceeds) → IsOrder p st ts
        → IsExceeds p st e → ⊥ }
{}

/// An order has each task once, and fits where each bound holds before it.
pub fn order_fits()
    ensures fits { (p : Plan) (st : Progress) (ts : List ℕ) → KeepsGoods p → IsWithin p (size st) []
        → IsOrder p st ts → Fits p st.phase st.held ts }
    ensures once { (p : Plan) (st : Progress) (ts : List ℕ) → IsOrder p st ts → AreOnce ts }
{}

/// On a proper plan a task is ready as long as one is left, so the steps never stop early.
pub fn some_task_is_next()
    ensures { (p : Plan) (st : Progress) (ts : List ℕ) → IsProper p → ((u : ℕ) → IsOpen p st ts u → ⊥)
        → (t : ℕ) → t < count_tasks p → is_done st ts t ≡ true }
{
    some_task_is_first();
    parents_come_before();
}

/// Order as a function gives the order, and none where Order is Exceeds.
pub fn order_is_a_function()
    ensures order { (p : Plan) (st : Progress) (ts : List ℕ) → IsOrder p st ts → stated_order p st ≡ Some ts }
    ensures exceeds { (p : Plan) (st : Progress) (e : Exceeds) → IsExceeds p st e → stated_order p st ≡ None }
{}

/// Whatever the scores, what is made step by step fits where each bound holds before it, and has all waiting tasks.
pub fn steps_fit()
    ensures fits { (p : Plan) (st : Progress) (less : List ℕ → ℕ → ℕ → Bool) (ts : List ℕ) → KeepsGoods p
        → IsWithin p (size st) [] → order_by p st less ≡ Some ts → Fits p st.phase st.held ts }
    ensures all { (p : Plan) (st : Progress) (less : List ℕ → ℕ → ℕ → Bool) (ts : List ℕ)
        → order_by p st less ≡ Some ts → (t : ℕ) → t < count_tasks p → waits (st.phase t) ≡ true
        → has ts t ≡ true }
{}
