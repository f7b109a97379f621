//! What escaped names come to.

ghost use Rattle.std.specs.Prelude.{◌≡◌, ◌∷◌, ℕ, List};
ghost use Rattle.std.specs.Str.{IsUtf8};
ghost use Rattle.host_files.specs.FileName.{HasNoSlash, escaped};

/// No escaped name has a slash or begins with a dot, and two names that are escaped alike are the same.
pub fn escaped_names_stay_apart()
    ensures no_slash { (name : List ℕ) → HasNoSlash (escaped name) }
    ensures no_dot { (name rest : List ℕ) → IsUtf8 name → escaped name ≡ 46 ∷ rest → ⊥ }
    ensures apart { (x y : List ℕ) → IsUtf8 x → IsUtf8 y → escaped x ≡ escaped y → x ≡ y }
{}
