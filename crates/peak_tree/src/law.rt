//! What the definitions on lists come to.

ghost use Rattle.std.specs.Prelude.{◌≡◌, ◌≤◌, ◌<◌, ℕ, ℤ, List, length, get_or, Option, Some, None};
ghost use Rattle.peak_tree.specs.Numbers.{greatest, IsGreatest, added, add_front, filled};

/// `greatest` is a number of the list that no other one is greater than, and none where no position is live.
pub fn greatest_is_the_greatest()
    ensures { (xs : List (Option ℕ)) → IsGreatest xs (greatest xs) }
{}

/// The numbers of the front have changed, and the others are as before.
pub fn add_front_by_position()
    ensures length { (count : ℕ) (delta : ℤ) (xs : List (Option ℕ))
        → length (add_front count delta xs) ≡ length xs }
    ensures front { (count : ℕ) (delta : ℤ) (xs : List (Option ℕ)) (i : ℕ) → i < count
        → get_or (add_front count delta xs) i None ≡ added delta (get_or xs i None) }
    ensures rest { (count : ℕ) (delta : ℤ) (xs : List (Option ℕ)) (i : ℕ) → count ≤ i
        → get_or (add_front count delta xs) i None ≡ get_or xs i None }
{}

/// The first positions have the numbers, and the others none.
pub fn filled_by_position()
    ensures length { (ns : List ℕ) (count : ℕ) → length ns ≤ count → length (filled ns count) ≡ count }
    ensures front { (ns : List ℕ) (count i : ℕ) → i < length ns
        → get_or (filled ns count) i None ≡ Some (get_or ns i 0) }
    ensures rest { (ns : List ℕ) (count i : ℕ) → length ns ≤ i → get_or (filled ns count) i None ≡ None }
{}
