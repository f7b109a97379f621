//! `alone`.

ghost use Rattle.std.specs.Prelude.{◌≡◌};
ghost use Rattle.plan_run.specs.Moments.{Tools};
ghost use Rattle.plan_run.specs.code.Moments.{member_moment, work_moment, working};
ghost use Rattle.pegasus_commands.specs.code.Commands.Alone.{RunsAlone, alone};
ghost use Rattle.pegasus_commands.specs.code.CommandSpec.{Does, OfFirst, doing};
ghost use Rattle.pegasus_commands.specs.code.Moments.{docs_moment};

use crate::commands::Worked;
use crate::ready_plan::{ended, ready_plan, unrun};
use crate::survey::read_survey;
use craft::{Crew, Gate};
use lease_rules::ordered_plans_fit;
use outside::{Docs, Host, Tool};
use plan_run::run_plan;
use planner::{Surveyed, plans_deliver_requests};
use site_yard::complete_records_deliver;
use std::alloc::Global;

/// Runs the plan of a surveyed request. The survey goes before the run, which has no need of it.
pub(crate) fn run_survey<H: Host, T: Tool, G: Gate>(
    alloc: Global,
    surveyed: Surveyed,
    host: H,
    crew: &mut Crew<T, G>,
) -> Worked<H>
    ensures works { (t : Tools)
        → RunsAlone (working T.apply T.known (work_moment H.Host host (member_moment T.Tool G.Gate crew.old))
        (work_moment H.Host result.host (member_moment T.Tool G.Gate crew.new)))
        t surveyed result.told.text.items result.told.answer }
    ensures gate { G.asked crew.new.gate ≡ G.asked crew.old.gate }
{
    // Laws for the proof: they do nothing.
    ordered_plans_fit();
    plans_deliver_requests();
    complete_records_deliver();
    let ready = ready_plan(alloc, &surveyed, &crew.tool);
    drop(surveyed);
    match ready {
        Ok(ordered) => ended(run_plan(alloc, ordered, host, crew)),
        Err(fault) => unrun(alloc, fault, host),
    }
}

pub(crate) fn work<D: Docs, H: Host, T: Tool, G: Gate>(
    alloc: Global,
    name: &str,
    docs: &mut D,
    host: H,
    crew: &mut Crew<T, G>,
) -> Worked<H>
    ensures does { let w = working T.apply T.known (work_moment H.Host host (member_moment T.Tool G.Gate crew.old))
        (work_moment H.Host result.host (member_moment T.Tool G.Gate crew.new)) in
        (t : Tools) → OfFirst w t
        → Does (alone name.now) (doing (docs_moment D.Docs docs.old) (docs_moment D.Docs docs.new) w t)
        result.told.text.items result.told.answer }
    ensures gate { G.asked crew.new.gate ≡ G.asked crew.old.gate }
{
    match read_survey(alloc, docs, name) {
        Ok(surveyed) => run_survey(alloc, surveyed, host, crew),
        Err(fault) => unrun(alloc, fault, host),
    }
}
