//! `rehearse`.

ghost use Rattle.std.specs.Prelude.{◌≡◌, ◌≤◌, IfSome, drop, length, true};
ghost use Rattle.outside.specs.code.MemoryHost.{host_counts};
ghost use Rattle.plan_core.specs.Words.{task_numbers};
ghost use Rattle.rehearsal.specs.Preparing.{IsPrepared};
ghost use Rattle.plan_run.specs.Moments.{Tools, WorkMoment};
ghost use Rattle.plan_run.specs.code.Moments.{counting, crew_moment, first_shown, first_tool, member_moment, working};
ghost use Rattle.pegasus_commands.specs.code.Commands.Rehearse.{AreFigures, ClosesOrMemory, IsOfTools, Rehearses, TellsEnd, prepared, rehearse, rehearse_by};
ghost use Rattle.pegasus_commands.specs.code.CommandSpec.{Does, OfFirst, doing};
ghost use Rattle.pegasus_commands.specs.Moments.{DocsMoment};
ghost use Rattle.pegasus_commands.specs.code.Moments.{with_first};
ghost use Rattle.command_words.specs.code.Words.{AreFew, AreImages};

use crate::commands::{Told, at_once};
use crate::fault::{CallFault, of_plan_fault};
use crate::ready_plan::ready_plan;
use craft::{Crew, Gate};
use lease_rules::ordered_plans_fit;
use outside::{Host, Memory, MemoryHost, SiteId, Tool};
use plan_run::{Ran, run_plan, run_plan_by};
use planner::{Surveyed, plans_deliver_requests};
use rehearsal::{Figures, Prepared, Rehearsal, prepare, summary};
use run_record::{Record, RunFault};
use site_yard::complete_records_deliver;
use std::alloc::Global;
use std::sync::Wait;
use std::thread::Threads;
use storage_simulation::Ordered;

/// The figures of a plan with its order, if it has a site.
fn figures_of(surveyed: &Surveyed, ordered: &Ordered) -> Option<Figures>
    ensures { IfSome result (AreFigures surveyed.now ordered.now.plan
        (task_numbers ordered.now.tasks.items)) }
{
    let plan = ordered.plan();
    let Some(site) = plan.sites.as_slice().first() else {
        return None;
    };
    Some(Figures {
        jobs: surveyed.survey.workflow.jobs.as_slice().len() as u64,
        tasks: plan.tasks.as_slice().len() as u64,
        bound: site.bound,
        peak: ordered.peak(SiteId(0)),
    })
}

/// Whether a fault is one of the tools of the call.
fn is_of_tools(fault: &RunFault) -> bool
    ensures { result ≡ true → IsOfTools fault.now }
{
    match fault {
        RunFault::Declined(_) | RunFault::Oversize(_, _, _, _) | RunFault::ToolFailed(_) => true,
        _ => false,
    }
}

/// The summary of a run that is done, with its record and the store that it ran over.
fn close(
    alloc: Global,
    images: u32,
    figures: &Figures,
    history: Option<Record>,
    host: MemoryHost,
) -> Told
    ensures { ClosesOrMemory images figures.now history host result.text.items result.answer }
{
    let Some(mosaic) = host.delivered("mosaic.txt") else {
        drop(history);
        drop(host);
        return at_once(alloc, CallFault::Memory);
    };
    let Ok(text) = summary(alloc, images, figures, mosaic) else {
        drop(history);
        drop(host);
        return at_once(alloc, CallFault::Memory);
    };
    let Some(record) = history else {
        drop(text);
        drop(host);
        return at_once(alloc, CallFault::Memory);
    };
    Told {
        answer: Ok(Some(Rehearsal { record, host })),
        text,
    }
}

/// What is told of a run. No other fault than one of a tool comes over a store in memory, of which no call fails.
fn tell_end(alloc: Global, images: u32, figures: &Figures, ran: Ran<MemoryHost>) -> Told
    ensures { TellsEnd images figures.now ran.end ran.history ran.host result.text.items result.answer }
{
    let Ran {
        end,
        history,
        text,
        delivered,
        host,
    } = ran;
    drop(text);
    drop(delivered);
    match end {
        Ok(()) => close(alloc, images, figures, history, host),
        Err(fault) => {
            if is_of_tools(&fault) && host.faults() == 0 {
                drop(history);
                drop(host);
                at_once(alloc, CallFault::Failed(fault))
            } else {
                drop(fault);
                drop(history);
                drop(host);
                at_once(alloc, CallFault::Memory)
            }
        }
    }
}

/// Plans a workload and runs it with one worker.
fn run_workload<T: Tool, G: Gate>(
    alloc: Global,
    images: u32,
    surveyed: Surveyed,
    host: MemoryHost,
    crew: &mut Crew<T, G>,
) -> Told
    requires { IsPrepared images (prepared surveyed host) }
    ensures works { (m : WorkMoment) → let w = working T.apply T.known (with_first m (member_moment T.Tool G.Gate crew.old))
        (with_first m (member_moment T.Tool G.Gate crew.new)) in
        Rehearses images 1 w (first_tool w) surveyed result.text.items result.answer }
    ensures gate { G.asked crew.new.gate ≡ G.asked crew.old.gate }
{
    // Laws for the proof: they do nothing.
    ordered_plans_fit();
    plans_deliver_requests();
    complete_records_deliver();
    let ordered = match ready_plan(alloc, &surveyed, &crew.tool) {
        Ok(ordered) => ordered,
        Err(fault) => {
            drop(surveyed);
            drop(host);
            return at_once(alloc, fault);
        }
    };
    let figures = figures_of(&surveyed, &ordered);
    drop(surveyed);
    let Some(figures) = figures else {
        drop(ordered);
        drop(host);
        return at_once(alloc, CallFault::Memory);
    };
    let ran = run_plan(alloc, ordered, host, crew);
    tell_end(alloc, images, &figures, ran)
}

/// Plans a workload and runs it with several workers.
fn run_workload_by<R: Threads + Wait + Sync, T: Tool + Send, G: Gate + Send>(
    rt: &R,
    alloc: Global,
    images: u32,
    workers: u32,
    surveyed: Surveyed,
    host: MemoryHost,
    crew: &mut Vec<Crew<T, G>>,
) -> Told
    requires prepared { IsPrepared images (prepared surveyed host) }
    requires workers { AreFew workers }
    requires crew { length crew.old.items ≡ 16 }
    ensures works { (m : WorkMoment) → let before = crew_moment T.Tool G.Gate crew.old.items in
        let after = crew_moment T.Tool G.Gate crew.new.items in
        Rehearses images workers (working T.apply T.known (with_first m (first_shown before))
        (with_first m (first_shown after)))
        (counting before after) surveyed result.text.items result.answer }
    ensures crew { length crew.new.items ≡ 16 }
    ensures others { drop workers crew.new.items ≡ drop workers crew.old.items }
{
    // Laws for the proof: they do nothing.
    ordered_plans_fit();
    plans_deliver_requests();
    complete_records_deliver();
    let ordered = match ready_plan(alloc, &surveyed, &crew[0].tool) {
        Ok(ordered) => ordered,
        Err(fault) => {
            drop(surveyed);
            drop(host);
            return at_once(alloc, fault);
        }
    };
    let figures = figures_of(&surveyed, &ordered);
    drop(surveyed);
    let Some(figures) = figures else {
        drop(ordered);
        drop(host);
        return at_once(alloc, CallFault::Memory);
    };
    let ran = run_plan_by(rt, alloc, workers, ordered, host, crew);
    tell_end(alloc, images, &figures, ran)
}

/// With one worker, the first member of a crew.
pub(crate) fn work<T: Tool, G: Gate>(alloc: Global, images: u32, crew: &mut Crew<T, G>) -> Told
    requires { AreImages images }
    ensures does { (d : DocsMoment) (m : WorkMoment) (t : Tools)
        → let w = working T.apply T.known (with_first m (member_moment T.Tool G.Gate crew.old))
        (with_first m (member_moment T.Tool G.Gate crew.new)) in
        OfFirst w t → Does (rehearse images) (doing d d w t)
        result.text.items result.answer }
    ensures gate { G.asked crew.new.gate ≡ G.asked crew.old.gate }
{
    match prepare(alloc, images) {
        Ok(Prepared { surveyed, host }) => run_workload(alloc, images, surveyed, host, crew),
        Err(fault) => at_once(alloc, of_plan_fault(fault)),
    }
}

/// With several workers, the first members of a crew, each in a thread of its own.
pub(crate) fn work_by<R: Threads + Wait + Sync, T: Tool + Send, G: Gate + Send>(
    rt: &R,
    alloc: Global,
    images: u32,
    workers: u32,
    crew: &mut Vec<Crew<T, G>>,
) -> Told
    requires images { AreImages images }
    requires workers { AreFew workers }
    requires crew { length crew.old.items ≡ 16 }
    ensures does { (d : DocsMoment) (m : WorkMoment)
        → let before = crew_moment T.Tool G.Gate crew.old.items in
        let after = crew_moment T.Tool G.Gate crew.new.items in
        Does (rehearse_by images workers) (doing d d
        (working T.apply T.known (with_first m (first_shown before))
        (with_first m (first_shown after))) (counting before after)) result.text.items result.answer }
    ensures crew { length crew.new.items ≡ 16 }
    ensures others { drop workers crew.new.items ≡ drop workers crew.old.items }
{
    match prepare(alloc, images) {
        Ok(Prepared { surveyed, host }) => run_workload_by(
            rt, alloc, images, workers, surveyed, host, crew,
        ),
        Err(fault) => at_once(alloc, of_plan_fault(fault)),
    }
}
