//! What a plan with Cleans comes to.

ghost use Rattle.std.specs.Prelude.{◌≡◌, ◌<◌, ◌≤◌, ◌+◌, ◌^◌, ℕ, Option, false, true};
ghost use Rattle.values.specs.Apply.{Apply};
ghost use Rattle.plan_core.specs.declared.plan.Plan.{Plan};
ghost use Rattle.plan_core.specs.code.Kinds.{carries};
ghost use Rattle.plan_core.specs.Words.{count_pairs, count_tasks};
ghost use Rattle.plan_core.specs.code.Proper.{IsProper};
ghost use Rattle.plan_core.specs.Carried.{Bytes, carried};
ghost use Rattle.cleanup_refiner.specs.code.Cleans.{HasNoClean};
ghost use Rattle.cleanup_refiner.specs.Cleans.{with_cleans};

use plan_core::{carried_is_carried_along, ways_back_end};

/// A proper plan without Cleans is proper with them.
pub fn cleaned_plan_is_proper()
    ensures { (p : Plan) → IsProper p → HasNoClean p → count_tasks p + count_pairs p < 2 ^ 32
        → IsProper (with_cleans p) }
{
    ways_back_end();
}

/// The tasks of a proper plan carry with Cleans what they carry without.
pub fn cleaned_plan_carries_the_same()
    ensures { (apply : Apply) (told : Bytes → Option Bytes) (p : Plan) → IsProper p → HasNoClean p
        → count_tasks p + count_pairs p < 2 ^ 32
        → (t f : ℕ) → t < count_tasks p → carried apply told (with_cleans p) t f ≡ carried apply told p t f }
{
    ways_back_end();
    carried_is_carried_along();
}

/// The Cleans carry nothing.
pub fn cleans_carry_nothing()
    ensures { (p : Plan) (t f : ℕ) → count_tasks p ≤ t → carries (with_cleans p) t f ≡ false }
{}

/// Where the tasks of a proper plan carry the values of their files, they do so with Cleans.
pub fn cleaned_plan_means_the_same()
    ensures { (apply : Apply) (told : Bytes → Option Bytes) (value : ℕ → Option Bytes) (p : Plan)
        → IsProper p → HasNoClean p → count_tasks p + count_pairs p < 2 ^ 32
        → ((t f : ℕ) → carries p t f ≡ true → carried apply told p t f ≡ value f) → (t f : ℕ)
        → carries (with_cleans p) t f ≡ true → carried apply told (with_cleans p) t f ≡ value f }
{
    cleaned_plan_carries_the_same();
    cleans_carry_nothing();
}
