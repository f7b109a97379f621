//! What the definitions of orders and cycles come to.

ghost use Rattle.std.specs.Prelude.{◌≡◌, ◌<◌, ℕ, Bool, true, List};
ghost use Rattle.digraph.specs.Cycle.{Returns};
ghost use Rattle.digraph.specs.code.Cycle.{IsNamedCycle};
ghost use Rattle.digraph.specs.Order.{IsTopologicalOrder};

/// Where the nodes below the count have a topological order, none of them returns to itself.
pub fn an_order_excludes_a_cycle()
    ensures { (e : ℕ → ℕ → Bool) (count : ℕ) (ns : List ℕ)
        → IsTopologicalOrder e count ns → (a : ℕ) → a < count → Returns e a → ⊥ }
{}

/// A relation has at most one named cycle.
pub fn the_named_cycle_is_one()
    ensures { (e : ℕ → ℕ → Bool) (first second : List ℕ)
        → IsNamedCycle e first → IsNamedCycle e second → first ≡ second }
{}
