//! One worker among many.

ghost use Rattle.std.specs.Prelude.{◌≡◌, ◌≤◌, ◌<◌, IfOk, IfSome, false, map, true};
ghost use Rattle.plan_core.specs.code.Proper.{IsProper};
ghost use Rattle.plan_core.specs.Words.{kind};
ghost use Rattle.lease_rules.specs.code.Owning.{is_open_after};
ghost use Rattle.ruled_lock.specs.Lock.{IsOf};
ghost use Rattle.ruled_lock.specs.Pass.{IsIdle, charter_of, mine_of, seen_of, worker_of};
ghost use Rattle.worker_gate.specs.code.Asking.{AsksOwn};
ghost use Rattle.worker_gate.specs.code.Inputs.{AddsOfInputs};
ghost use Rattle.worker_gate.specs.code.Runs.{OwnRunsWithin, RunsTask};
ghost use Rattle.worker_gate.specs.code.Telling.{IsToldOf};
ghost use Rattle.worker_gate.specs.code.Turning.{IsPlanOf, KeepsTurn, NoneOpenBy, NoneOpenFor, plan_of};
ghost use Rattle.task_work.specs.Filling.{AreParts};
ghost use Rattle.task_work.specs.Making.{AreBegun, AreEmpty};
ghost use Rattle.worker_gate.specs.code.Working.{DoesOwn, FillsWith, Works};

use crate::tending::fill_loan;
use crate::turning::{begin, copy_plan, finish, lease};
use craft::{Crew, Gate};
use outside::{Host, Memory, TaskId, Tool};
use plan_core::Plan;
use ruled_lock::{Pass, RuledLock};
use run_record::Cause;
use site_yard::{Leased, Loan, Yard, plan_laws};
use std::alloc::Global;
use std::sync::Wait;
use task_work::{Filled, runs_carry_what_they_compute};

/// Fills a loan's drafts, by a worker's copy of the plan, if it has one.
fn fill_with<H: Host, T: Tool>(
    alloc: Global,
    plan: &Result<Plan, Memory>,
    task: TaskId,
    loan: &mut Loan<H>,
    tool: &mut T,
) -> Result<Filled, Cause>
    requires proper { IfOk plan.now IsProper }
    requires parts { IfOk plan.now (λ p. AreParts p task.0 (kind p task.0)
        (map H.Reading.state loan.old.readings.items) (map H.Draft.state loan.old.drafts.items)) }
    requires start { AreBegun (map H.Reading.state loan.old.readings.items) }
    requires empty { AreEmpty (map H.Draft.state loan.old.drafts.items) }
    ensures fills { FillsWith T.apply plan.now task.0 (map H.Reading.state loan.old.readings.items)
        (map H.Reading.state loan.new.readings.items) (map H.Draft.state loan.old.drafts.items)
        (map H.Draft.state loan.new.drafts.items) (T.faults tool.old) (T.faults tool.new) result }
    ensures runs { RunsTask plan.now task.0 (T.runs tool.old) (T.runs tool.new) }
{
    match plan {
        Ok(plan) => fill_loan(alloc, plan, task, loan, tool),
        Err(_) => Err(Cause::Memory),
    }
}

/// Does what a task says that is open. Its bytes are moved, and its jobs computed, between two turns.
fn do_task<R: Wait, H: Host, T: Tool, G: Gate>(
    rt: &R,
    alloc: Global,
    lock: &RuledLock<Yard<H, T>>,
    pass: &mut Pass<Yard<H, T>>,
    crew: &mut Crew<T, G>,
    plan: &Result<Plan, Memory>,
    task: TaskId,
)
    requires of { IsOf lock.now pass.old }
    requires idle { IsIdle pass.old }
    requires open { is_open_after task.0 false (mine_of pass.old) ≡ true }
    requires plan { IsPlanOf (charter_of pass.old) plan.now }
    ensures keeps { KeepsTurn lock.now pass.old pass.new }
    ensures does { DoesOwn (worker_of pass.old) task.0 (mine_of pass.old) (mine_of pass.new)
        (T.faults crew.old.tool) (T.faults crew.new.tool) }
    ensures inputs { IfSome (charter_of pass.old)
        (λ g. AddsOfInputs T.apply (plan_of g) (mine_of pass.old) (mine_of pass.new)) }
    ensures tool { T.faults crew.old.tool ≤ T.faults crew.new.tool }
    ensures runs { OwnRunsWithin (charter_of pass.old) (worker_of pass.old) (mine_of pass.old) (mine_of pass.new)
        (T.runs crew.old.tool) (T.runs crew.new.tool) }
    ensures asked { AsksOwn (mine_of pass.old) (mine_of pass.new) (G.asked crew.old.gate)
        (G.asked crew.new.gate) }
    ensures told { IsToldOf (worker_of pass.old) (seen_of pass.old) (seen_of pass.new)
        (G.told crew.old.gate) (G.told crew.new.gate) }
{
    // Laws for the proof: they do nothing.
    plan_laws();
    runs_carry_what_they_compute();
    let Some(mut loan) = begin(rt, alloc, lock, pass, task, &mut crew.gate) else {
        return;
    };
    crew.gate.before(task);
    let filled = fill_with(alloc, plan, task, &mut loan, &mut crew.tool);
    finish(rt, alloc, lock, pass, task, loan, filled, &mut crew.gate);
}

/// Leases and works until all is done or something failed, its own failure included, by a copy of the plan. Between two of its
/// turns others may work; where nothing can begin it passes its gate's `idle` and waits for their news. Where it has begun a
/// task it wakes one who waits, since more may begin, and at the end all. It doesn't promise to end.
pub(crate) fn work_by<R: Wait, H: Host, T: Tool, G: Gate>(
    rt: &R,
    alloc: Global,
    lock: &RuledLock<Yard<H, T>>,
    plan: &Result<Plan, Memory>,
    pass: &mut Pass<Yard<H, T>>,
    crew: &mut Crew<T, G>,
)
    requires of { IsOf lock.now pass.old }
    requires idle { IsIdle pass.old }
    requires worker { worker_of pass.old < 16 }
    requires none_open { NoneOpenBy (mine_of pass.old) }
    requires plan { IsPlanOf (charter_of pass.old) plan.now }
    ensures keeps { KeepsTurn lock.now pass.old pass.new }
    ensures works { IfSome (charter_of pass.old)
        (λ g. Works g (worker_of pass.old) (mine_of pass.old) (mine_of pass.new) (seen_of pass.new)
        (T.faults crew.old.tool) (T.faults crew.new.tool)) }
    ensures inputs { IfSome (charter_of pass.old)
        (λ g. AddsOfInputs T.apply (plan_of g) (mine_of pass.old) (mine_of pass.new)) }
    ensures tool { T.faults crew.old.tool ≤ T.faults crew.new.tool }
    ensures runs { OwnRunsWithin (charter_of pass.old) (worker_of pass.old) (mine_of pass.old) (mine_of pass.new)
        (T.runs crew.old.tool) (T.runs crew.new.tool) }
    ensures asked { AsksOwn (mine_of pass.old) (mine_of pass.new) (G.asked crew.old.gate)
        (G.asked crew.new.gate) }
    ensures told { IsToldOf (worker_of pass.old) (seen_of pass.old) (seen_of pass.new)
        (G.told crew.old.gate) (G.told crew.new.gate) }
{
    for _ in rt.forever() {
        match lease(rt, alloc, lock, pass, &mut crew.gate) {
            Leased::Granted(task) => {
                lock.wake_one();
                do_task(rt, alloc, lock, pass, crew, plan, task);
            }
            Leased::Swept(_) => {}
            Leased::Failed(_) => {}
            Leased::Again(_) => {}
            Leased::NotYet => {
                crew.gate.idle();
                lock.changed(rt, pass);
            }
            Leased::Done => return lock.wake_all(),
            Leased::Stopped => return lock.wake_all(),
        }
    }
    unreachable!()
}

/// Leases and works until all is done or something failed, by a copy of the plan that its first turn makes. It doesn't promise
/// to end.
pub fn work<R: Wait, H: Host, T: Tool, G: Gate>(
    rt: &R,
    alloc: Global,
    lock: &RuledLock<Yard<H, T>>,
    pass: &mut Pass<Yard<H, T>>,
    crew: &mut Crew<T, G>,
)
    requires of { IsOf lock.now pass.old }
    requires idle { IsIdle pass.old }
    requires worker { worker_of pass.old < 16 }
    requires none_open { IfSome (charter_of pass.old)
        (λ g. NoneOpenFor g (worker_of pass.old) (seen_of pass.old)) }
    ensures keeps { KeepsTurn lock.now pass.old pass.new }
    ensures works { IfSome (charter_of pass.old)
        (λ g. Works g (worker_of pass.old) (mine_of pass.old) (mine_of pass.new) (seen_of pass.new)
        (T.faults crew.old.tool) (T.faults crew.new.tool)) }
    ensures inputs { IfSome (charter_of pass.old)
        (λ g. AddsOfInputs T.apply (plan_of g) (mine_of pass.old) (mine_of pass.new)) }
    ensures tool { T.faults crew.old.tool ≤ T.faults crew.new.tool }
    ensures runs { OwnRunsWithin (charter_of pass.old) (worker_of pass.old) (mine_of pass.old) (mine_of pass.new)
        (T.runs crew.old.tool) (T.runs crew.new.tool) }
    ensures asked { AsksOwn (mine_of pass.old) (mine_of pass.new) (G.asked crew.old.gate)
        (G.asked crew.new.gate) }
    ensures told { IsToldOf (worker_of pass.old) (seen_of pass.old) (seen_of pass.new)
        (G.told crew.old.gate) (G.told crew.new.gate) }
{
    let plan = copy_plan(rt, alloc, lock, pass);
    work_by(rt, alloc, lock, &plan, pass, crew);
}
