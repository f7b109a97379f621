//! The work of a run that is gone on with.

ghost use Rattle.std.specs.Prelude.{◌≡◌, ◌≤◌, length, map};
ghost use Rattle.craft.specs.declared.crew.Crew.{Crew};
ghost use Rattle.plan_core.specs.Words.{count_tasks, task_numbers};
ghost use Rattle.lease_book.specs.Book.{state_at};
ghost use Rattle.site_yard.specs.code.Yard.{IsSameYard};
ghost use Rattle.worker_gate.specs.code.Calls.{AddsCalls};
ghost use Rattle.worker_gate.specs.code.Inputs.{AddsOfInputs};
ghost use Rattle.plan_run.specs.code.Moments.{crew_moment};
ghost use Rattle.resume_run.specs.Lost.{lost_below};
ghost use Rattle.resume_run.specs.Redoing.{AreRunsWithin, AreToldOf};
ghost use Rattle.resume_run.specs.Working.{WorksOn};

use crate::lost::Lost;
use crate::redoing::redo;
use craft::{Crew, Gate};
use outside::{Host, Tool};
use site_yard::Yard;
use std::alloc::Global;
use worker_gate::run_alone;

/// Does the lost tasks by their own workers, and then works as worker 0 until all is done or something failed.
pub(crate) fn work_on<H: Host, T: Tool, G: Gate>(
    alloc: Global,
    yard: Yard<H, T>,
    lost: &[Lost],
    crew: &mut Vec<Crew<T, G>>,
) -> Yard<H, T>
    requires members { 16 ≤ length crew.old.items }
    requires lost { lost.now ≡ lost_below (state_at yard.book) (count_tasks yard.ordered.value.plan) }
    ensures works { WorksOn yard.ordered.value.plan
        (task_numbers yard.ordered.value.tasks.items) yard.book.history.events result.book.history.events
        (crew_moment T.Tool G.Gate crew.old.items) (crew_moment T.Tool G.Gate crew.new.items) }
    ensures calls { AddsCalls yard.ordered.value.plan yard.book.history.events result.book.history.events
        (H.counts yard.host) (H.counts result.host) }
    ensures inputs { AddsOfInputs T.apply yard.ordered.value.plan yard.book.history.events
        result.book.history.events }
    ensures crew { length crew.new.items ≡ length crew.old.items }
    ensures asked { map (λ (c : Crew T G). G.asked c.gate) crew.new.items
        ≡ map (λ (c : Crew T G). G.asked c.gate) crew.old.items }
    ensures told { AreToldOf yard.book.history.events result.book.history.events
        (crew_moment T.Tool G.Gate crew.old.items) (crew_moment T.Tool G.Gate crew.new.items) }
    ensures runs { AreRunsWithin yard.ordered.value.plan yard.book.history.events result.book.history.events
        (crew_moment T.Tool G.Gate crew.old.items) (crew_moment T.Tool G.Gate crew.new.items) }
    ensures same { IsSameYard yard result }
{
    let yard = redo(alloc, yard, lost, crew);
    if yard.book().is_failing() {
        return yard;
    }
    run_alone(alloc, yard, &mut crew[0])
}
