//! The tasks that were lost when a run stopped, done before it goes on.

ghost use Rattle.std.specs.Prelude.{◌≡◌, ◌≤◌, ◌<◌, ◌++◌, ◌∷◌, [], List, length, map};
ghost use Rattle.craft.specs.declared.crew.Crew.{Crew};
ghost use Rattle.plan_core.specs.Words.{count_tasks, task_numbers};
ghost use Rattle.run_record.specs.Events.{Event};
ghost use Rattle.lease_book.specs.Book.{state_at};
ghost use Rattle.lease_rules.specs.Legal.{IsOpen};
ghost use Rattle.lease_rules.specs.code.Reading.{is_fail};
ghost use Rattle.site_yard.specs.code.Yard.{IsSameYard};
ghost use Rattle.worker_gate.specs.code.Calls.{AddsCalls};
ghost use Rattle.worker_gate.specs.code.Inputs.{AddsOfInputs};
ghost use Rattle.plan_run.specs.code.Moments.{crew_moment};
ghost use Rattle.resume_run.specs.Lost.{lost_below};
ghost use Rattle.resume_run.specs.Redoing.{AddsFaults, AreRunsWithin, AreToldOf, Redoes, RedoesOne};

use crate::lost::Lost;
use crate::replaying::is_fail;
use craft::{Crew, Gate};
use outside::{Host, Tool};
use run_record::Record;
use site_yard::Yard;
use std::alloc::Global;
use worker_gate::do_task;

/// Whether the last entry is a Fail.
fn ends_in_fail(history: &Record) -> bool
    requires { 0 < length history.now.events }
    ensures { (r : List Event) (e : Event) → history.now.events ≡ r ++ e ∷ [] → result ≡ is_fail e }
{
    is_fail(&history.entry(history.len() - 1))
}

/// Does a task as its own worker. It tells whether a Fail was added.
fn redo_one<H: Host, T: Tool, G: Gate>(
    alloc: Global,
    yard: &mut Yard<H, T>,
    lost: Lost,
    crew: &mut Vec<Crew<T, G>>,
) -> bool
    requires open { IsOpen (state_at yard.old.book) lost.worker lost.task.0 }
    requires member { lost.worker < length crew.old.items }
    ensures redoes { RedoesOne lost yard.old.book.history.events yard.new.book.history.events
        (crew_moment T.Tool G.Gate crew.old.items) (crew_moment T.Tool G.Gate crew.new.items) result }
    ensures calls { AddsCalls yard.old.ordered.value.plan yard.old.book.history.events yard.new.book.history.events
        (H.counts yard.old.host) (H.counts yard.new.host) }
    ensures inputs { AddsOfInputs T.apply yard.old.ordered.value.plan yard.old.book.history.events
        yard.new.book.history.events }
    ensures crew { length crew.new.items ≡ length crew.old.items }
    ensures asked { map (λ (c : Crew T G). G.asked c.gate) crew.new.items
        ≡ map (λ (c : Crew T G). G.asked c.gate) crew.old.items }
    ensures told { AreToldOf yard.old.book.history.events yard.new.book.history.events
        (crew_moment T.Tool G.Gate crew.old.items) (crew_moment T.Tool G.Gate crew.new.items) }
    ensures runs { AreRunsWithin yard.old.ordered.value.plan yard.old.book.history.events
        yard.new.book.history.events (crew_moment T.Tool G.Gate crew.old.items)
        (crew_moment T.Tool G.Gate crew.new.items) }
    ensures same { IsSameYard yard.old yard.new }
{
    let member = &mut crew[lost.worker as usize];
    do_task(alloc, yard, member, lost.worker, lost.task);
    ends_in_fail(yard.book().record())
}

/// Does the tasks that are open in their order, each as its own worker and with that member's tool. After a Fail it does no
/// other. It asks no gate, and tells the member's gate of each entry.
pub fn redo<H: Host, T: Tool, G: Gate>(
    alloc: Global,
    yard: Yard<H, T>,
    lost: &[Lost],
    crew: &mut Vec<Crew<T, G>>,
) -> Yard<H, T>
    requires members { 16 ≤ length crew.old.items }
    requires lost { lost.now ≡ lost_below (state_at yard.book) (count_tasks yard.ordered.value.plan) }
    ensures redoes { Redoes yard.ordered.value.plan
        (task_numbers yard.ordered.value.tasks.items) yard.book.history.events result.book.history.events lost.now }
    ensures calls { AddsCalls yard.ordered.value.plan yard.book.history.events result.book.history.events
        (H.counts yard.host) (H.counts result.host) }
    ensures inputs { AddsOfInputs T.apply yard.ordered.value.plan yard.book.history.events
        result.book.history.events }
    ensures tools { AddsFaults yard.book.history.events result.book.history.events
        (crew_moment T.Tool G.Gate crew.old.items) (crew_moment T.Tool G.Gate crew.new.items) }
    ensures crew { length crew.new.items ≡ length crew.old.items }
    ensures asked { map (λ (c : Crew T G). G.asked c.gate) crew.new.items
        ≡ map (λ (c : Crew T G). G.asked c.gate) crew.old.items }
    ensures told { AreToldOf yard.book.history.events result.book.history.events
        (crew_moment T.Tool G.Gate crew.old.items) (crew_moment T.Tool G.Gate crew.new.items) }
    ensures runs { AreRunsWithin yard.ordered.value.plan yard.book.history.events result.book.history.events
        (crew_moment T.Tool G.Gate crew.old.items) (crew_moment T.Tool G.Gate crew.new.items) }
    ensures same { IsSameYard yard result }
{
    let mut yard = yard;
    for one in lost {
        if redo_one(alloc, &mut yard, *one, crew) {
            return yard;
        }
    }
    yard
}
