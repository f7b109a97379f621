//! What the definition of an evaluation comes to.

ghost use Rattle.std.specs.Prelude.{◌≡◌};
ghost use Rattle.outside.specs.code.Counts.{Rose};
ghost use Rattle.run_record.specs.declared.run_fault.RunFault.TheVariants as run_faults;
ghost use Rattle.evaluation.specs.Evaluating.{AllDefined, HasNoValues};
ghost use Rattle.evaluation.specs.Moments.{Meeting, Subject};
ghost use Rattle.evaluation.specs.declared.fault.EvaluationFault.{EvaluationFault};
ghost use Rattle.evaluation.specs.declared.fault.EvaluationFault.TheVariants.{Failed};

/// Where all is defined and no count of faults rose, only want of memory leaves no values.
pub fn evaluations_finish()
    ensures { (m : Meeting) (s : Subject) (fault : EvaluationFault)
        → HasNoValues m s fault → AllDefined m s
        → (Rose m.before.counts.faults m.after.counts.faults → ⊥)
        → (Rose m.before.tool m.after.tool → ⊥)
        → fault ≡ Failed run_faults.Memory }
{}
