//! `ensemble`.

ghost use Rattle.std.specs.Prelude.{◌≡◌, drop, length};
ghost use Rattle.plan_run.specs.Moments.{Tools};
ghost use Rattle.plan_run.specs.code.Moments.{counting, crew_moment, first_shown, member_moment, work_moment, working};
ghost use Rattle.pegasus_commands.specs.code.Commands.EnsembleRun.{ensemble, ensemble_by};
ghost use Rattle.pegasus_commands.specs.code.CommandSpec.{Does, OfFirst, doing};
ghost use Rattle.pegasus_commands.specs.code.Moments.{docs_moment};
ghost use Rattle.command_words.specs.code.Words.{AreFew};

use crate::commands::{Worked, alone, run};
use crate::ensembles::read_joint;
use crate::ready_plan::unrun;
use craft::{Crew, Gate};
use outside::{Docs, Host, Tool};
use std::alloc::Global;
use std::sync::Wait;
use std::thread::Threads;

/// With one worker, the first member of a crew.
pub(crate) fn work<D: Docs, H: Host, T: Tool, G: Gate>(
    alloc: Global,
    name: &str,
    docs: &mut D,
    host: H,
    crew: &mut Crew<T, G>,
) -> Worked<H>
    ensures does { let w = working T.apply T.known (work_moment H.Host host (member_moment T.Tool G.Gate crew.old))
        (work_moment H.Host result.host (member_moment T.Tool G.Gate crew.new)) in
        (t : Tools) → OfFirst w t
        → Does (ensemble name.now) (doing (docs_moment D.Docs docs.old) (docs_moment D.Docs docs.new) w t)
        result.told.text.items result.told.answer }
    ensures gate { G.asked crew.new.gate ≡ G.asked crew.old.gate }
{
    match read_joint(alloc, docs, name) {
        Ok(surveyed) => alone::run_survey(alloc, surveyed, host, crew),
        Err(fault) => unrun(alloc, fault, host),
    }
}

/// With several workers, the first members of a crew, each in a thread of its own.
pub(crate) fn work_by<
    R: Threads + Wait + Sync,
    D: Docs,
    H: Host + Send,
    T: Tool + Send,
    G: Gate + Send,
>(
    rt: &R,
    alloc: Global,
    name: &str,
    workers: u32,
    docs: &mut D,
    host: H,
    crew: &mut Vec<Crew<T, G>>,
) -> Worked<H>
where
    H::Reading: Send,
    H::Draft: Send,
    requires workers { AreFew workers }
    requires crew { length crew.old.items ≡ 16 }
    ensures does { let before = crew_moment T.Tool G.Gate crew.old.items in
        let after = crew_moment T.Tool G.Gate crew.new.items in
        Does (ensemble_by name.now workers) (doing (docs_moment D.Docs docs.old) (docs_moment D.Docs docs.new)
        (working T.apply T.known (work_moment H.Host host (first_shown before))
        (work_moment H.Host result.host (first_shown after)))
        (counting before after)) result.told.text.items result.told.answer }
    ensures crew { length crew.new.items ≡ 16 }
    ensures others { drop workers crew.new.items ≡ drop workers crew.old.items }
{
    match read_joint(alloc, docs, name) {
        Ok(surveyed) => run::run_survey(rt, alloc, workers, surveyed, host, crew),
        Err(fault) => unrun(alloc, fault, host),
    }
}
