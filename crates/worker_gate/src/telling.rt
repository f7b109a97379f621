//! The calls of a yard that add an entry, of which the worker's gate is told before the turn ends.

ghost use Rattle.std.specs.Prelude.{◌≡◌, ◌<◌, ◌++◌, [], IfNone, IfSome, if◌then◌else◌, length, map, nat_lt, take};
ghost use Rattle.craft.specs.Placed.{last_placed};
ghost use Rattle.lease_book.specs.Book.{state_at};
ghost use Rattle.lease_rules.specs.Legal.{IsOpen};
ghost use Rattle.site_yard.specs.code.Lending.{count_parts};
ghost use Rattle.site_yard.specs.code.Loan.{IsLent};
ghost use Rattle.site_yard.specs.code.Yard.{Adds, IsFailure, IsSameYard, Leases, TakesWithin};
ghost use Rattle.site_yard.specs.code.Failures.{AreMore};
ghost use Rattle.worker_gate.specs.code.Calls.{EndsCalls};
ghost use Rattle.worker_gate.specs.code.Inputs.{AddsOfInputs, IsFilledOf};
ghost use Rattle.worker_gate.specs.code.Telling.{IsToldOf};
ghost use Rattle.worker_gate.specs.code.Tending.{CanFinish, EndsTask, failures_in};

use crate::tending::finish_at;
use craft::Gate;
use outside::{Host, TaskId, Tool};
use run_record::{Cause, Record};
use site_yard::{Leased, Loan, Yard};
use std::alloc::Global;
use task_work::Filled;

/// Tells a gate the last entry of a record that had so many before.
fn tell<G: Gate>(gate: &mut G, history: &Record, before: usize)
    ensures asked { G.asked gate.new ≡ G.asked gate.old }
    ensures told { G.told gate.new ≡ G.told gate.old ++ (if nat_lt before (length history.now.events)
        then last_placed history.now.events else []) }
{
    if before < history.len() {
        gate.entered(history);
    }
}

/// Leases for a worker.
pub(crate) fn lease_told<H: Host, T: Tool, G: Gate>(
    alloc: Global,
    yard: &mut Yard<H, T>,
    worker: u32,
    gate: &mut G,
) -> Leased
    requires { worker < 16 }
    ensures leased { Leases yard.old.ordered.value.plan
        (state_at yard.old.book) worker yard.old.book.history.events yard.new.book.history.events
        (H.told yard.old.host) (H.counts yard.old.host) (H.counts yard.new.host) result }
    ensures same { IsSameYard yard.old yard.new }
    ensures asked { G.asked gate.new ≡ G.asked gate.old }
    ensures told { IsToldOf worker yard.old.book.history.events yard.new.book.history.events
        (G.told gate.old) (G.told gate.new) }
{
    let before = yard.book().record().len();
    let leased = yard.lease(alloc, worker);
    tell(gate, yard.book().record(), before);
    leased
}

/// Makes the loan of a task that is open for a worker, or adds why there is none.
pub(crate) fn lend_told<H: Host, T: Tool, G: Gate>(
    alloc: Global,
    yard: &mut Yard<H, T>,
    worker: u32,
    task: TaskId,
    gate: &mut G,
) -> Option<Loan<H>>
    requires open { IsOpen (state_at yard.old.book) worker task.0 }
    ensures history { IfSome result (λ l. yard.new.book.history.events ≡ yard.old.book.history.events) }
    ensures lent { IfSome result (λ l. IsLent T.apply yard.old.ordered.value.plan
        (take yard.old.opened yard.old.book.history.events) (H.marked yard.old.host)
        (H.told yard.old.host) task.0 (map H.Reading.state l.readings.items)
        (map H.Draft.state l.drafts.items)) }
    ensures asked { IfSome result (λ l. AreMore (count_parts yard.old.ordered.value.plan task.0) 0 0
        (H.counts yard.old.host) (H.counts yard.new.host)) }
    ensures none { IfNone result (Adds yard.old.book.history.events yard.new.book.history.events
        (IsFailure worker task.0) (TakesWithin (count_parts yard.old.ordered.value.plan task.0))
        (H.told yard.old.host) (H.counts yard.old.host) (H.counts yard.new.host)) }
    ensures told { H.told yard.new.host ≡ H.told yard.old.host }
    ensures same { IsSameYard yard.old yard.new }
    ensures gate { G.asked gate.new ≡ G.asked gate.old }
    ensures entered { IsToldOf worker yard.old.book.history.events yard.new.book.history.events
        (G.told gate.old) (G.told gate.new) }
{
    let before = yard.book().record().len();
    let lent = yard.lend(alloc, worker, task);
    tell(gate, yard.book().record(), before);
    lent
}

/// Settles a loan that was filled, or abandons it with why it wasn't.
pub(crate) fn finish_told<H: Host, T: Tool, G: Gate>(
    alloc: Global,
    yard: &mut Yard<H, T>,
    worker: u32,
    task: TaskId,
    loan: Loan<H>,
    filled: Result<Filled, Cause>,
    gate: &mut G,
)
    requires open { IsOpen (state_at yard.old.book) worker task.0 }
    requires can { CanFinish T.apply yard.old.ordered.value.plan
        (take yard.old.opened yard.old.book.history.events) (H.marked yard.old.host)
        (H.told yard.old.host) task.0 (map H.Reading.state loan.readings.items)
        (map H.Draft.state loan.drafts.items) filled }
    requires inputs { IsFilledOf T.apply yard.old.ordered.value.plan task.0 filled }
    ensures ends { EndsTask worker task.0
        (failures_in filled) yard.old.book.history.events yard.new.book.history.events }
    ensures calls { EndsCalls yard.old.ordered.value.plan task.0 yard.old.book.history.events
        yard.new.book.history.events (H.counts yard.old.host) (H.counts yard.new.host) }
    ensures inputs { AddsOfInputs T.apply yard.old.ordered.value.plan yard.old.book.history.events
        yard.new.book.history.events }
    ensures same { IsSameYard yard.old yard.new }
    ensures asked { G.asked gate.new ≡ G.asked gate.old }
    ensures told { IsToldOf worker yard.old.book.history.events yard.new.book.history.events
        (G.told gate.old) (G.told gate.new) }
{
    let before = yard.book().record().len();
    finish_at(alloc, yard, worker, task, loan, filled);
    tell(gate, yard.book().record(), before);
}
