//! The commands.

ghost use Rattle.std.specs.Prelude.{◌≡◌, [], drop, length, map};
ghost use Rattle.craft.specs.declared.crew.Crew.{Crew};
ghost use Rattle.plan_run.specs.Moments.{Tools};
ghost use Rattle.plan_run.specs.code.Moments.{counting, crew_moment, first_shown, member_moment, work_moment, working};
ghost use Rattle.pegasus_commands.specs.code.Commands.{has_line, quick_spec, threaded_spec};
ghost use Rattle.pegasus_commands.specs.code.CommandSpec.{Does, OfFirst, doing};
ghost use Rattle.pegasus_commands.specs.code.Fault.{not_for};
ghost use Rattle.pegasus_commands.specs.code.Moments.{docs_moment};
ghost use Rattle.command_words.specs.code.Words.{AreFew, HasImages, HasImagesBy, Quickly, quick_members, quick_of, threaded_members, threaded_of};

mod alone;
mod audit;
mod check;
mod ensemble_run;
mod eval;
mod plan;
mod produce;
mod rehearse;
mod resume;
mod run;
mod schedule;
mod stat;

use crate::fault::CallFault;
use command_words::{Quick, Threaded};
use craft::{Crew, Gate};
use outside::{Docs, Host, Tool};
use rehearsal::Rehearsal;
use std::alloc::Global;
use std::sync::Wait;
use std::thread::Threads;

/// The most tasks that a plan may have.
pub(crate) const TASK_LIMIT: u64 = 120_000;

/// What a command tells: its answer, and the text before the answer's line.
#[derive(Drop)]
pub struct Told {
    pub answer: Result<Option<Rehearsal>, CallFault>,
    pub text: Vec<u8>,
}

/// An answer with no text before its line.
pub(crate) fn at_once(alloc: Global, fault: CallFault) -> Told
    ensures answer { result.answer ≡ not_for fault }
    ensures text { result.text.items ≡ [] }
{
    Told {
        answer: Err(fault),
        text: Vec::new(alloc),
    }
}

/// What a command tells, and the host after it.
#[derive(Drop)]
pub struct Worked<H> {
    pub told: Told,
    pub host: H,
}

/// Whether the line of the outcome closes what a command tells, also where it is done.
pub fn has_line(command: Quick<'_>) -> bool
    ensures { result ≡ has_line (Quickly (quick_of command.entry)) }
{
    match command {
        Quick::Produce(_) => false,
        _ => true,
    }
}

/// Does a command that works with the first member of the crew alone.
fn work_by_first<D: Docs, H: Host, T: Tool, G: Gate>(
    alloc: Global,
    command: Quick<'_>,
    docs: &mut D,
    host: H,
    crew: &mut Crew<T, G>,
) -> Worked<H>
    requires first { quick_members (quick_of command) ≡ 1 }
    requires images { HasImages (quick_of command) }
    ensures does { let w = working T.apply T.known (work_moment H.Host host (member_moment T.Tool G.Gate crew.old))
        (work_moment H.Host result.host (member_moment T.Tool G.Gate crew.new)) in
        (t : Tools) → OfFirst w t
        → Does (quick_spec (quick_of command.entry))
        (doing (docs_moment D.Docs docs.old) (docs_moment D.Docs docs.new) w t)
        result.told.text.items result.told.answer }
    ensures gate { G.asked crew.new.gate ≡ G.asked crew.old.gate }
{
    let mut host = host;
    match command {
        Quick::Check(name) => {
            let told = check::work(alloc, name, docs);
            Worked { told, host }
        }
        Quick::Plan(name) => {
            let told = plan::work(alloc, name, docs);
            Worked { told, host }
        }
        Quick::Eval(name) => {
            let told = eval::work(alloc, name, docs, &mut host, &mut crew.tool);
            Worked { told, host }
        }
        Quick::Alone(name) => alone::work(alloc, name, docs, host, crew),
        Quick::Audit(name, history) => {
            let told = audit::work(alloc, name, history, docs);
            Worked { told, host }
        }
        Quick::Stat(name, history) => {
            let told = stat::work(alloc, name, history, docs);
            Worked { told, host }
        }
        Quick::Resume(_, _) => unreachable!(),
        Quick::Produce(name) => produce::work(alloc, name, docs, host, crew),
        Quick::Schedule(name) => {
            let told = schedule::work(alloc, name, docs);
            Worked { told, host }
        }
        Quick::Ensemble(name) => ensemble_run::work(alloc, name, docs, host, crew),
        Quick::Rehearse(images) => {
            let told = rehearse::work(alloc, images, crew);
            Worked { told, host }
        }
    }
}

/// Does a command that starts no thread.
pub fn work<D: Docs, H: Host, T: Tool, G: Gate>(
    alloc: Global,
    command: Quick<'_>,
    docs: &mut D,
    host: H,
    crew: &mut Vec<Crew<T, G>>,
) -> Worked<H>
    requires images { HasImages (quick_of command) }
    requires crew { length crew.old.items ≡ 16 }
    ensures does { let before = crew_moment T.Tool G.Gate crew.old.items in
        let after = crew_moment T.Tool G.Gate crew.new.items in
        Does (quick_spec (quick_of command.entry))
        (doing (docs_moment D.Docs docs.old) (docs_moment D.Docs docs.new)
        (working T.apply T.known (work_moment H.Host host (first_shown before))
        (work_moment H.Host result.host (first_shown after)))
        (counting before after)) result.told.text.items result.told.answer }
    ensures crew { length crew.new.items ≡ 16 }
    ensures others { let used = quick_members (quick_of command.entry) in
        drop used crew.new.items ≡ drop used crew.old.items }
    ensures gates { map (λ (c : Crew T G). G.asked c.gate) crew.new.items
        ≡ map (λ (c : Crew T G). G.asked c.gate) crew.old.items }
{
    match command {
        Quick::Resume(name, history) => resume::work(alloc, name, history, docs, host, crew),
        command => work_by_first(alloc, command, docs, host, &mut crew[0]),
    }
}

/// Does a command that may start threads, with a member of the crew for each worker.
pub fn work_in_threads<
    R: Threads + Wait + Sync,
    D: Docs,
    H: Host + Send,
    T: Tool + Send,
    G: Gate + Send,
>(
    rt: &R,
    alloc: Global,
    command: Threaded<'_>,
    docs: &mut D,
    host: H,
    crew: &mut Vec<Crew<T, G>>,
) -> Worked<H>
where
    H::Reading: Send,
    H::Draft: Send,
    requires few { AreFew (threaded_members (threaded_of command)) }
    requires images { HasImagesBy (threaded_of command) }
    requires crew { length crew.old.items ≡ 16 }
    ensures does { let before = crew_moment T.Tool G.Gate crew.old.items in
        let after = crew_moment T.Tool G.Gate crew.new.items in
        Does (threaded_spec (threaded_of command.entry))
        (doing (docs_moment D.Docs docs.old) (docs_moment D.Docs docs.new)
        (working T.apply T.known (work_moment H.Host host (first_shown before))
        (work_moment H.Host result.host (first_shown after)))
        (counting before after)) result.told.text.items result.told.answer }
    ensures crew { length crew.new.items ≡ 16 }
    ensures others { let used = threaded_members (threaded_of command.entry) in
        drop used crew.new.items ≡ drop used crew.old.items }
{
    match command {
        Threaded::Run(name, workers) => run::work(rt, alloc, name, workers, docs, host, crew),
        Threaded::Ensemble(name, workers) => {
            ensemble_run::work_by(rt, alloc, name, workers, docs, host, crew)
        }
        Threaded::Rehearse(images, workers) => {
            let told = rehearse::work_by(rt, alloc, images, workers, crew);
            Worked { told, host }
        }
    }
}
