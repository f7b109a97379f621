//! What the definition of the kept jobs comes to.

ghost use Rattle.std.specs.Prelude.{◌≡◌, ℕ, Bool, true};
ghost use Rattle.workflow_core.specs.declared.workflow.Workflow.{Workflow};
ghost use Rattle.data_reuse.specs.Kept.{IsKept};
ghost use Rattle.data_reuse.specs.code.Kept.{IsClosed};

/// The kept jobs hold each wanted job and each that feeds a kept one, and every set that does so holds them.
pub fn kept_is_least()
    ensures closed { (absent : ℕ → Bool) (w : Workflow) → IsClosed absent w (IsKept absent w) }
    ensures least { (absent : ℕ → Bool) (w : Workflow) (P : ℕ → Bool) → IsClosed absent w (λ a. P a ≡ true)
        → (a : ℕ) → IsKept absent w a → P a ≡ true }
{}
