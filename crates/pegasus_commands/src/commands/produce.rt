//! `produce`.

ghost use Rattle.std.specs.Prelude.{◌≡◌, IfOk};
ghost use Rattle.replica_writer.specs.Writer.{CanWrite};
ghost use Rattle.plan_run.specs.Moments.{Tools};
ghost use Rattle.plan_run.specs.code.Moments.{member_moment, work_moment, working};
ghost use Rattle.pegasus_commands.specs.code.Commands.Produce.{AreFilesNamed, IsWritten, Produces, TellsRun, Writes, produce};
ghost use Rattle.pegasus_commands.specs.code.CommandSpec.{Does, OfFirst, doing};
ghost use Rattle.pegasus_commands.specs.code.Fault.{end_answer};
ghost use Rattle.pegasus_commands.specs.code.Moments.{docs_moment};

use crate::commands::{Told, Worked, at_once};
use crate::fault::CallFault;
use crate::ready_plan::{ended, ready_plan, unrun};
use crate::survey::read_survey;
use craft::{Crew, Gate};
use lease_rules::ordered_plans_fit;
use outside::{Docs, Host, Memory, Tool};
use plan_core::Plan;
use plan_run::{Ran, run_plan};
use planner::{Surveyed, plans_deliver_requests};
use replica_writer::{catalogue, deliveries_can_be_written, written_files_keep_nothing};
use site_yard::{Delivered, complete_records_deliver};
use std::alloc::Global;

/// The catalogue of what was delivered, with the end of its line.
fn text_of(alloc: Global, plan: &Plan, delivered: &[Delivered]) -> Result<Vec<u8>, Memory>
    requires { CanWrite plan.now delivered.now }
    ensures { IfOk result (λ text. IsWritten plan.now delivered.now text.items) }
{
    let mut text = catalogue(alloc, plan, delivered)?.into_vec();
    text.push(b'\n')?;
    Ok(text)
}

/// What is told of a run that is done.
fn catalogued(alloc: Global, plan: &Plan, delivered: &[Delivered]) -> Told
    requires { CanWrite plan.now delivered.now }
    ensures { Writes plan.now delivered.now result.text.items result.answer }
{
    match text_of(alloc, plan, delivered) {
        Ok(text) => Told {
            answer: Ok(None),
            text,
        },
        Err(Memory) => at_once(alloc, CallFault::Memory),
    }
}

/// What is told of a run.
fn tell_run<H: Host>(alloc: Global, plan: &Plan, ran: Ran<H>) -> Worked<H>
    requires { IfOk ran.end (λ u. CanWrite plan.now ran.delivered.items) }
    ensures tells { TellsRun plan.now ran.delivered.items ran.text.items (end_answer ran.end)
        result.told.text.items result.told.answer }
    ensures host { result.host ≡ ran.host }
{
    match ran.end {
        Ok(()) => {
            let told = catalogued(alloc, plan, &ran.delivered);
            let Ran {
                end,
                history,
                text,
                delivered,
                host,
            } = ran;
            drop(end);
            drop(history);
            drop(text);
            drop(delivered);
            Worked { told, host }
        }
        Err(_) => ended(ran),
    }
}

/// Runs the plan of a surveyed request, and catalogues what it delivers. The survey goes before the run.
fn run_survey<H: Host, T: Tool, G: Gate>(
    alloc: Global,
    surveyed: Surveyed,
    host: H,
    crew: &mut Crew<T, G>,
) -> Worked<H>
    requires named { AreFilesNamed surveyed.survey }
    ensures works { (t : Tools)
        → Produces (working T.apply T.known (work_moment H.Host host (member_moment T.Tool G.Gate crew.old))
        (work_moment H.Host result.host (member_moment T.Tool G.Gate crew.new)))
        t surveyed result.told.text.items result.told.answer }
    ensures gate { G.asked crew.new.gate ≡ G.asked crew.old.gate }
{
    // Laws for the proof: they do nothing.
    ordered_plans_fit();
    plans_deliver_requests();
    complete_records_deliver();
    deliveries_can_be_written();
    written_files_keep_nothing();
    let ready = ready_plan(alloc, &surveyed, &crew.tool);
    drop(surveyed);
    let ordered = match ready {
        Ok(ordered) => ordered,
        Err(fault) => return unrun(alloc, fault, host),
    };
    match ordered.plan().copy(alloc) {
        Ok(plan) => {
            let worked = tell_run(alloc, &plan, run_plan(alloc, ordered, host, crew));
            drop(plan);
            worked
        }
        Err(Memory) => {
            drop(ordered);
            unrun(alloc, CallFault::Memory, host)
        }
    }
}

pub(crate) fn work<D: Docs, H: Host, T: Tool, G: Gate>(
    alloc: Global,
    name: &str,
    docs: &mut D,
    host: H,
    crew: &mut Crew<T, G>,
) -> Worked<H>
    ensures does { let w = working T.apply T.known (work_moment H.Host host (member_moment T.Tool G.Gate crew.old))
        (work_moment H.Host result.host (member_moment T.Tool G.Gate crew.new)) in
        (t : Tools) → OfFirst w t
        → Does (produce name.now) (doing (docs_moment D.Docs docs.old) (docs_moment D.Docs docs.new) w t)
        result.told.text.items result.told.answer }
    ensures gate { G.asked crew.new.gate ≡ G.asked crew.old.gate }
{
    match read_survey(alloc, docs, name) {
        Ok(surveyed) => run_survey(alloc, surveyed, host, crew),
        Err(fault) => unrun(alloc, fault, host),
    }
}
