//! One task of a worker alone, from its lease to its end, or from its loan if it is open already.

ghost use Rattle.std.specs.Prelude.{◌≡◌, ◌≤◌};
ghost use Rattle.lease_book.specs.Book.{state_at};
ghost use Rattle.lease_rules.specs.Legal.{IsOpen};
ghost use Rattle.site_yard.specs.code.Yard.{IsSameYard};
ghost use Rattle.worker_gate.specs.code.Alone.{NoneOpen};
ghost use Rattle.worker_gate.specs.code.Calls.{AddsCalls};
ghost use Rattle.worker_gate.specs.code.Inputs.{AddsOfInputs};
ghost use Rattle.worker_gate.specs.code.Runs.{RunsWithin};
ghost use Rattle.worker_gate.specs.code.Stepping.{DoesTask, Steps};
ghost use Rattle.worker_gate.specs.code.Telling.{IsToldOf};

use crate::law::lease_laws;
use crate::telling::{finish_told, lease_told, lend_told};
use crate::tending::fill_loan;
use craft::{Crew, Gate};
use outside::{Host, TaskId, Tool};
use site_yard::{Leased, Yard, plan_laws};
use std::alloc::Global;
use task_work::runs_carry_what_they_compute;

/// Does what a task says that is open for the worker. Its gate is told of it, and not asked.
pub fn do_task<H: Host, T: Tool, G: Gate>(
    alloc: Global,
    yard: &mut Yard<H, T>,
    crew: &mut Crew<T, G>,
    worker: u32,
    task: TaskId,
)
    requires { IsOpen (state_at yard.old.book) worker task.0 }
    ensures does { DoesTask worker yard.old.book.history.events yard.new.book.history.events task.0
        (T.faults crew.old.tool) (T.faults crew.new.tool) }
    ensures calls { AddsCalls yard.old.ordered.value.plan yard.old.book.history.events yard.new.book.history.events
        (H.counts yard.old.host) (H.counts yard.new.host) }
    ensures inputs { AddsOfInputs T.apply yard.old.ordered.value.plan yard.old.book.history.events
        yard.new.book.history.events }
    ensures tool { T.faults crew.old.tool ≤ T.faults crew.new.tool }
    ensures runs { RunsWithin yard.old.ordered.value.plan worker yard.old.book.history.events
        yard.new.book.history.events (T.runs crew.old.tool) (T.runs crew.new.tool) }
    ensures same { IsSameYard yard.old yard.new }
    ensures asked { G.asked crew.new.gate ≡ G.asked crew.old.gate }
    ensures told { IsToldOf worker yard.old.book.history.events yard.new.book.history.events
        (G.told crew.old.gate) (G.told crew.new.gate) }
{
    // Laws for the proof: they do nothing.
    plan_laws();
    runs_carry_what_they_compute();
    if let Some(mut loan) = lend_told(alloc, yard, worker, task, &mut crew.gate) {
        let filled = fill_loan(alloc, yard.plan(), task, &mut loan, &mut crew.tool);
        finish_told(alloc, yard, worker, task, loan, filled, &mut crew.gate);
    }
}

/// Leases as worker 0 and does the task. It tells whether the record goes on.
pub(crate) fn step<H: Host, T: Tool, G: Gate>(
    alloc: Global,
    yard: &mut Yard<H, T>,
    crew: &mut Crew<T, G>,
) -> bool
    requires { NoneOpen (state_at yard.old.book) }
    ensures steps { Steps yard.old.ordered.value.plan
        (state_at yard.old.book) yard.old.book.history.events yard.new.book.history.events
        (state_at yard.new.book) (T.faults crew.old.tool) (T.faults crew.new.tool) result }
    ensures calls { AddsCalls yard.old.ordered.value.plan yard.old.book.history.events yard.new.book.history.events
        (H.counts yard.old.host) (H.counts yard.new.host) }
    ensures inputs { AddsOfInputs T.apply yard.old.ordered.value.plan yard.old.book.history.events
        yard.new.book.history.events }
    ensures tool { T.faults crew.old.tool ≤ T.faults crew.new.tool }
    ensures runs { RunsWithin yard.old.ordered.value.plan 0 yard.old.book.history.events
        yard.new.book.history.events (T.runs crew.old.tool) (T.runs crew.new.tool) }
    ensures same { IsSameYard yard.old yard.new }
    ensures asked { G.asked crew.new.gate ≡ G.asked crew.old.gate }
    ensures told { IsToldOf 0 yard.old.book.history.events yard.new.book.history.events
        (G.told crew.old.gate) (G.told crew.new.gate) }
{
    // For the proof: a law, and that the record's state is safe.
    lease_laws();
    let _record = yard.book().record();
    match lease_told(alloc, yard, 0, &mut crew.gate) {
        Leased::Granted(task) => {
            do_task(alloc, yard, crew, 0, task);
            true
        }
        Leased::Swept(_) => true,
        Leased::Failed(_) => true,
        Leased::Again(_) => true,
        Leased::Done => false,
        Leased::Stopped => false,
        Leased::NotYet => unreachable!(),
    }
}
