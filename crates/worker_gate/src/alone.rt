//! One worker alone.

ghost use Rattle.std.specs.Prelude.{◌≡◌, ◌≤◌};
ghost use Rattle.plan_core.specs.Words.{task_numbers};
ghost use Rattle.lease_book.specs.Book.{state_at};
ghost use Rattle.site_yard.specs.code.Yard.{IsSameYard};
ghost use Rattle.worker_gate.specs.code.Alone.{NoneOpen, WorksAlone};
ghost use Rattle.worker_gate.specs.code.Calls.{AddsCalls};
ghost use Rattle.worker_gate.specs.code.Inputs.{AddsOfInputs};
ghost use Rattle.worker_gate.specs.code.Runs.{RunsWithin};
ghost use Rattle.worker_gate.specs.code.Telling.{IsToldOf};

use crate::law::lease_laws;
use crate::stepping::step;
use craft::{Crew, Gate};
use outside::{Host, Tool};
use site_yard::Yard;
use std::alloc::Global;

/// Works as worker 0 until all is done or something failed. It waits for nobody; its gate is told each entry, and not asked.
pub fn run_alone<H: Host, T: Tool, G: Gate>(
    alloc: Global,
    yard: Yard<H, T>,
    crew: &mut Crew<T, G>,
) -> Yard<H, T>
    requires { NoneOpen (state_at yard.book) }
    ensures works { WorksAlone yard.ordered.value.plan
        (task_numbers yard.ordered.value.tasks.items) yard.book.history.events result.book.history.events
        (T.faults crew.old.tool) (T.faults crew.new.tool) }
    ensures calls { AddsCalls yard.ordered.value.plan yard.book.history.events result.book.history.events
        (H.counts yard.host) (H.counts result.host) }
    ensures inputs { AddsOfInputs T.apply yard.ordered.value.plan yard.book.history.events
        result.book.history.events }
    ensures tool { T.faults crew.old.tool ≤ T.faults crew.new.tool }
    ensures runs { RunsWithin yard.ordered.value.plan 0 yard.book.history.events result.book.history.events
        (T.runs crew.old.tool) (T.runs crew.new.tool) }
    ensures asked { G.asked crew.new.gate ≡ G.asked crew.old.gate }
    ensures told { IsToldOf 0 yard.book.history.events result.book.history.events
        (G.told crew.old.gate) (G.told crew.new.gate) }
    ensures same { IsSameYard yard result }
{
    // A law for the proof: it does nothing.
    lease_laws();
    let mut yard = yard;
    while step(alloc, &mut yard, crew) {}
    yard
}
