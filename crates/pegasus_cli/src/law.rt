//! What the clause of a call comes to.

ghost use Rattle.std.specs.Prelude.{◌≡◌, ◌⊎◌, ℕ, List, None, Result, Some};
ghost use Rattle.values.specs.FileMap.{Files};
ghost use Rattle.outside.specs.declared.counts.Counts.{Counts};
ghost use Rattle.pegasus_commands.specs.declared.course.Requested.{Requested};
ghost use Rattle.pegasus_commands.specs.declared.fault.CallFault.{CallFault};
ghost use Rattle.pegasus_commands.specs.code.Course.{ButMemory, Gives, HasFailed, documents, read_from};
ghost use Rattle.command_words.specs.code.Words.{command};
ghost use Rattle.pegasus_cli.specs.declared.outcome.Outcome.{Outcome};
ghost use Rattle.pegasus_cli.specs.declared.outcome.Outcome.TheVariants as outcomes;
ghost use Rattle.pegasus_cli.specs.code.Call.{IsAnswered};
ghost use Rattle.pegasus_cli.specs.Moments.{Call};

/// Told documents decide what comes of them, but where a fetch failed, which was counted, or memory ran out.
pub fn told_documents_decide()
    ensures { (files : Files) (name : List ℕ) (before after : Counts) (r : Result Requested CallFault)
        → Gives (Some files) (documents name) before after r
        → ButMemory r ((r ≡ read_from files (documents name)) ⊎ HasFailed before after r) }
{}

/// Usage comes exactly where the words are no command.
pub fn usage_is_no_command()
    ensures only { (c : Call) → IsAnswered c outcomes.Usage → command c.asked.words ≡ None }
    ensures always { (c : Call) (outcome : Outcome) → command c.asked.words ≡ None
        → (answered : IsAnswered c outcome) → answered.answer ≡ outcomes.Usage }
{}
