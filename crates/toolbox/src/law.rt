//! What the definitions come to.

ghost use Rattle.std.specs.Prelude.{◌≡◌, ◌++◌, ◌∷◌, [], ℕ, List, None, Some, codes};
ghost use Rattle.toolbox.specs.Lines.{lines, written};
ghost use Rattle.toolbox.specs.Shipped.{applied};
ghost use Rattle.toolbox.specs.Transformation.Sorted.{Rises, in_order, times};

/// The lines of a text that ends with a line feed, written again, are the text.
pub fn written_lines_are_the_text()
    ensures { (text : List ℕ) → written (lines (text ++ 10 ∷ [])) ≡ text ++ 10 ∷ [] }
{}

/// Lines in order rise, and each stands there as often as before.
pub fn lines_in_order_rise()
    ensures rise { (lines : List (List ℕ)) → Rises (in_order lines) }
    ensures kept { (line : List ℕ) (lines : List (List ℕ)) → times line (in_order lines) ≡ times line lines }
{}

/// Known arguments and inputs, and what is made of them.
pub fn known_vectors_hold()
    ensures text_joins_words { applied (codes "text") (codes "a" ∷ codes "b c" ∷ []) [] 1
        ≡ Some (codes "a b c\n" ∷ []) }
    ensures text_of_nothing { applied (codes "text") [] [] 1 ≡ Some (codes "\n" ∷ []) }
    ensures text_with_input { applied (codes "text") (codes "a" ∷ []) (codes "x" ∷ []) 1 ≡ None }
    ensures join { applied (codes "join") [] (codes "ab" ∷ codes "c" ∷ []) 1 ≡ Some (codes "abc" ∷ []) }
    ensures take { applied (codes "take") (codes "2" ∷ []) (codes "x\ny\nz" ∷ []) 1
        ≡ Some (codes "x\ny\n" ∷ []) }
    ensures take_more_than_all { applied (codes "take") (codes "9" ∷ []) (codes "x" ∷ []) 1
        ≡ Some (codes "x\n" ∷ []) }
    ensures drop { applied (codes "drop") (codes "2" ∷ []) (codes "x\ny\nz" ∷ []) 1
        ≡ Some (codes "z\n" ∷ []) }
    ensures deal { applied (codes "deal") [] (codes "d\nb\nc\na\n" ∷ []) 2
        ≡ Some (codes "d\nc\n" ∷ codes "b\na\n" ∷ []) }
    ensures sorted { applied (codes "sorted") [] (codes "b\na\nb" ∷ []) 1 ≡ Some (codes "a\nb\nb\n" ∷ []) }
    ensures distinct { applied (codes "distinct") [] (codes "b\na\nb" ∷ []) 1 ≡ Some (codes "b\na\n" ∷ []) }
    ensures count { applied (codes "count") [] (codes "x\ny" ∷ codes "z\n" ∷ []) 1
        ≡ Some (codes "2 5\n" ∷ []) }
    ensures holds { applied (codes "holds") (codes "an" ∷ []) (codes "banana\nfig\n" ∷ []) 1
        ≡ Some (codes "banana\n" ∷ []) }
    ensures column { applied (codes "column") (codes "2" ∷ []) (codes "a\tb\nc\n" ∷ []) 1
        ≡ Some (codes "b\n\n" ∷ []) }
    ensures total { applied (codes "total") [] (codes "7\n005\n" ∷ []) 1 ≡ Some (codes "12\n" ∷ []) }
    ensures total_of_nothing { applied (codes "total") [] [] 1 ≡ Some (codes "0\n" ∷ []) }
    ensures total_of_a_negative { applied (codes "total") [] (codes "-1\n" ∷ []) 1 ≡ None }
{}
