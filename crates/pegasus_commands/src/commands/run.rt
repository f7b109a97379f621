//! `run`.

ghost use Rattle.std.specs.Prelude.{◌≡◌, drop, length};
ghost use Rattle.plan_run.specs.code.Moments.{counting, crew_moment, first_shown, work_moment, working};
ghost use Rattle.pegasus_commands.specs.code.Commands.Run.{RunsMany, run};
ghost use Rattle.pegasus_commands.specs.code.CommandSpec.{Does, doing};
ghost use Rattle.pegasus_commands.specs.code.Moments.{docs_moment};
ghost use Rattle.command_words.specs.code.Words.{AreFew};

use crate::commands::Worked;
use crate::ready_plan::{ended, ready_plan, unrun};
use crate::survey::read_survey;
use craft::{Crew, Gate};
use lease_rules::ordered_plans_fit;
use outside::{Docs, Host, Tool};
use plan_run::run_plan_by;
use planner::{Surveyed, plans_deliver_requests};
use site_yard::complete_records_deliver;
use std::alloc::Global;
use std::sync::Wait;
use std::thread::Threads;

/// Runs the plan of a surveyed request. The survey goes before the run, which has no need of it.
pub(crate) fn run_survey<R: Threads + Wait + Sync, H: Host + Send, T: Tool + Send, G: Gate + Send>(
    rt: &R,
    alloc: Global,
    workers: u32,
    surveyed: Surveyed,
    host: H,
    crew: &mut Vec<Crew<T, G>>,
) -> Worked<H>
where
    H::Reading: Send,
    H::Draft: Send,
    requires workers { AreFew workers }
    requires crew { length crew.old.items ≡ 16 }
    ensures works { let before = crew_moment T.Tool G.Gate crew.old.items in
        let after = crew_moment T.Tool G.Gate crew.new.items in
        RunsMany workers (working T.apply T.known (work_moment H.Host host (first_shown before))
        (work_moment H.Host result.host (first_shown after)))
        (counting before after) surveyed result.told.text.items result.told.answer }
    ensures crew { length crew.new.items ≡ 16 }
    ensures others { drop workers crew.new.items ≡ drop workers crew.old.items }
{
    // Laws for the proof: they do nothing.
    ordered_plans_fit();
    plans_deliver_requests();
    complete_records_deliver();
    let ready = ready_plan(alloc, &surveyed, &crew[0].tool);
    drop(surveyed);
    match ready {
        Ok(ordered) => ended(run_plan_by(rt, alloc, workers, ordered, host, crew)),
        Err(fault) => unrun(alloc, fault, host),
    }
}

pub(crate) fn work<
    R: Threads + Wait + Sync,
    D: Docs,
    H: Host + Send,
    T: Tool + Send,
    G: Gate + Send,
>(
    rt: &R,
    alloc: Global,
    name: &str,
    workers: u32,
    docs: &mut D,
    host: H,
    crew: &mut Vec<Crew<T, G>>,
) -> Worked<H>
where
    H::Reading: Send,
    H::Draft: Send,
    requires workers { AreFew workers }
    requires crew { length crew.old.items ≡ 16 }
    ensures does { let before = crew_moment T.Tool G.Gate crew.old.items in
        let after = crew_moment T.Tool G.Gate crew.new.items in
        Does (run name.now workers) (doing (docs_moment D.Docs docs.old) (docs_moment D.Docs docs.new)
        (working T.apply T.known (work_moment H.Host host (first_shown before))
        (work_moment H.Host result.host (first_shown after)))
        (counting before after)) result.told.text.items result.told.answer }
    ensures crew { length crew.new.items ≡ 16 }
    ensures others { drop workers crew.new.items ≡ drop workers crew.old.items }
{
    match read_survey(alloc, docs, name) {
        Ok(surveyed) => run_survey(rt, alloc, workers, surveyed, host, crew),
        Err(fault) => unrun(alloc, fault, host),
    }
}
