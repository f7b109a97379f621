//! What the definition of a record's text comes to.

ghost use Rattle.std.specs.Prelude.{◌≡◌, List, ℕ};
ghost use Rattle.run_record.specs.Events.{Event};
ghost use Rattle.run_record.specs.code.Fault.{IsMalformedAt};
ghost use Rattle.run_record.specs.code.RecordText.{AreEntries};
ghost use Rattle.run_record.specs.RecordText.{record_text};

/// No two records have the same text.
pub fn text_is_of_one_record()
    ensures { (es fs : List Event) → AreEntries es → AreEntries fs → record_text es ≡ record_text fs
        → es ≡ fs }
{}

/// No line of a record's text is malformed, and no two lines of another text are.
pub fn malformed_line_is_one()
    ensures none { (es : List Event) (k : ℕ) → AreEntries es → IsMalformedAt (record_text es) k → ⊥ }
    ensures one { (text : List ℕ) (j k : ℕ) → IsMalformedAt text j → IsMalformedAt text k → j ≡ k }
{}
