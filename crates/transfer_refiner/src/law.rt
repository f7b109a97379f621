//! What the plan of a draft comes to.

ghost use Rattle.std.specs.Prelude.{◌≡◌, ◌<◌, ◌≤◌, ◌+◌, ◌^◌, ℕ, false, length, None, Some};
ghost use Rattle.plan_core.specs.declared.plan.Plan.{Plan};
ghost use Rattle.plan_core.specs.code.Proper.{IsProper};
ghost use Rattle.plan_core.specs.Words.{count_pairs, count_tasks, declared, is_clean};
ghost use Rattle.plan_request.specs.code.Limits.{IsWithinLimits};
ghost use Rattle.transfer_refiner.specs.Draft.{Draft};
ghost use Rattle.transfer_refiner.specs.code.Tasks.{count_cleans, first_fault};
ghost use Rattle.transfer_refiner.specs.code.Conditions.{IsDraft};
ghost use Rattle.transfer_refiner.specs.Refined.{IsRefined};

/// The plan of a draft without a fault is proper.
pub fn refined_plan_is_proper()
    ensures { (d : Draft) (limit : ℕ) (p : Plan) → IsDraft d → limit < 2 ^ 32 → first_fault d limit ≡ None
        → IsRefined d p → IsProper p }
{}

/// The limit on tasks counts the Cleans that the request's strategy adds to such a plan.
pub fn cleans_are_counted()
    ensures { (d : Draft) (limit : ℕ) (p : Plan) → first_fault d limit ≡ None → IsRefined d p
        → count_tasks p + count_cleans d.request.cleanup (count_pairs p) ≤ limit }
{}

/// The plan of a draft has no Clean, at most 64 sites and 50,000 files, and no declared size above 2^40.
pub fn refined_plan_is_small()
    ensures cleans { (d : Draft) (p : Plan) → IsRefined d p → (t : ℕ) → is_clean p t ≡ false }
    ensures sites { (d : Draft) (p : Plan) → IsDraft d → IsRefined d p → length p.sites ≤ 64 }
    ensures files { (d : Draft) (p : Plan) → IsDraft d → IsRefined d p → length p.files ≤ 50000 }
    ensures sizes { (d : Draft) (p : Plan) → IsDraft d → IsWithinLimits d.request → IsRefined d p → (f n : ℕ)
        → declared p f ≡ Some n → n ≤ 2 ^ 40 }
{}
