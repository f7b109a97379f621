//! `check`.

ghost use Rattle.std.specs.Prelude.{◌≡◌};
ghost use Rattle.plan_run.specs.Moments.{Tools, Work};
ghost use Rattle.pegasus_commands.specs.code.Commands.Check.{Says, check};
ghost use Rattle.pegasus_commands.specs.code.CommandSpec.{Does, doing};
ghost use Rattle.pegasus_commands.specs.code.Moments.{docs_moment};

use crate::commands::{Told, at_once};
use crate::fault::CallFault;
use crate::survey::read_survey;
use outside::{Docs, Memory};
use planner::{Survey, check_text};
use std::alloc::Global;

fn checked(alloc: Global, survey: &Survey) -> Told
    ensures { Says survey.now result.text.items result.answer }
{
    match check_text(alloc, survey) {
        Ok(text) => Told {
            answer: Ok(None),
            text,
        },
        Err(Memory) => at_once(alloc, CallFault::Memory),
    }
}

pub(crate) fn work<D: Docs>(alloc: Global, name: &str, docs: &mut D) -> Told
    ensures { (w : Work) (t : Tools) → w.after ≡ w.before → t.after ≡ t.before
        → Does (check name.now) (doing (docs_moment D.Docs docs.old) (docs_moment D.Docs docs.new) w t)
        result.text.items result.answer }
{
    match read_survey(alloc, docs, name) {
        Ok(surveyed) => {
            let told = checked(alloc, &surveyed.survey);
            drop(surveyed);
            told
        }
        Err(fault) => at_once(alloc, fault),
    }
}
