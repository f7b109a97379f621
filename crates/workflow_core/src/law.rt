//! What the definitions of numbering come to.

ghost use Rattle.workflow_core.specs.code.Law.{NumbersNames};

/// Names that are added one after the other are the distinct ones, each with a number of its own.
pub fn names_are_numbered()
    ensures { NumbersNames }
{}
