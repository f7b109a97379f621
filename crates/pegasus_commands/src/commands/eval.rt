//! `eval`.

ghost use Rattle.std.specs.Prelude.{◌≡◌, ℕ, List};
ghost use Rattle.plan_run.specs.Moments.{Tools, gateless};
ghost use Rattle.plan_run.specs.code.Moments.{work_moment, working};
ghost use Rattle.run_record.specs.Events.{Event};
ghost use Rattle.pegasus_commands.specs.code.Commands.Eval.{Evaluates, eval};
ghost use Rattle.pegasus_commands.specs.code.CommandSpec.{Does, OfFirst, doing};
ghost use Rattle.pegasus_commands.specs.code.Moments.{docs_moment};

use crate::commands::{Told, at_once};
use crate::fault::{CallFault, of_evaluation_fault};
use crate::survey::read_survey;
use evaluation::{value_text, values_of};
use outside::{Docs, Host, Memory, Tool};
use planner::Surveyed;
use std::alloc::Global;

/// The lines of the requested files' values, or why there are none.
fn values_text<H: Host, T: Tool>(
    alloc: Global,
    surveyed: &Surveyed,
    host: &mut H,
    tool: &mut T,
) -> Told
    ensures { (told : List (ℕ × Event)) (t : Tools) → Evaluates (working T.apply T.known
        (work_moment H.Host host.old (gateless (T.faults tool.old) (T.runs tool.old) told))
        (work_moment H.Host host.new (gateless (T.faults tool.new) (T.runs tool.new) told)))
        t surveyed.now result.text.items result.answer }
{
    let survey = &surveyed.survey;
    let workflow = &survey.workflow;
    let values = match values_of(
        alloc,
        workflow,
        &survey.graph,
        &survey.replicas,
        &surveyed.request,
        host,
        tool,
    ) {
        Ok(values) => values,
        Err(fault) => return at_once(alloc, of_evaluation_fault(fault)),
    };
    match value_text(alloc, workflow, &values) {
        Ok(text) => Told {
            answer: Ok(None),
            text,
        },
        Err(Memory) => at_once(alloc, CallFault::Memory),
    }
}

pub(crate) fn work<D: Docs, H: Host, T: Tool>(
    alloc: Global,
    name: &str,
    docs: &mut D,
    host: &mut H,
    tool: &mut T,
) -> Told
    ensures { (told : List (ℕ × Event)) (t : Tools)
        → let w = working T.apply T.known
        (work_moment H.Host host.old (gateless (T.faults tool.old) (T.runs tool.old) told))
        (work_moment H.Host host.new (gateless (T.faults tool.new) (T.runs tool.new) told)) in
        OfFirst w t
        → Does (eval name.now) (doing (docs_moment D.Docs docs.old) (docs_moment D.Docs docs.new) w t)
        result.text.items result.answer }
{
    match read_survey(alloc, docs, name) {
        Ok(surveyed) => {
            let told = values_text(alloc, &surveyed, host, tool);
            drop(surveyed);
            told
        }
        Err(fault) => at_once(alloc, fault),
    }
}
