//! `schedule`.

ghost use Rattle.std.specs.Prelude.{◌≡◌};
ghost use Rattle.plan_run.specs.Moments.{Tools, Work};
ghost use Rattle.pegasus_commands.specs.code.Commands.Schedule.{Says, schedule};
ghost use Rattle.pegasus_commands.specs.code.CommandSpec.{Does, doing};
ghost use Rattle.pegasus_commands.specs.code.Moments.{docs_moment};

use crate::commands::{Told, at_once};
use crate::fault::{CallFault, of_plan_fault};
use crate::survey::read_survey;
use outside::{Docs, Memory};
use planner::{Surveyed, schedule_survey, schedule_text};
use std::alloc::Global;

/// The text of the schedule of a surveyed request, or why there is none.
fn scheduled(alloc: Global, surveyed: &Surveyed) -> Told
    ensures { Says surveyed.now result.text.items result.answer }
{
    let schedule = match schedule_survey(alloc, surveyed) {
        Ok(schedule) => schedule,
        Err(fault) => return at_once(alloc, of_plan_fault(fault)),
    };
    let text = schedule_text(alloc, &surveyed.survey.workflow, &schedule);
    drop(schedule);
    match text {
        Ok(text) => Told {
            answer: Ok(None),
            text,
        },
        Err(Memory) => at_once(alloc, CallFault::Memory),
    }
}

pub(crate) fn work<D: Docs>(alloc: Global, name: &str, docs: &mut D) -> Told
    ensures { (w : Work) (t : Tools) → w.after ≡ w.before → t.after ≡ t.before
        → Does (schedule name.now) (doing (docs_moment D.Docs docs.old) (docs_moment D.Docs docs.new) w t)
        result.text.items result.answer }
{
    match read_survey(alloc, docs, name) {
        Ok(surveyed) => {
            let told = scheduled(alloc, &surveyed);
            drop(surveyed);
            told
        }
        Err(fault) => at_once(alloc, fault),
    }
}
