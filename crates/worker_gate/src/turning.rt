//! The turns of a worker at a yard that several share. In each it makes one call of the yard, which adds one entry at
//! most.

ghost use Rattle.std.specs.Prelude.{◌≡◌, ◌<◌, ◌++◌, ◌∷◌, [], ℕ, IfNone, IfOk, IfSome, List, false, map, true};
ghost use Rattle.run_record.specs.Events.{Event};
ghost use Rattle.lease_rules.specs.code.Owning.{is_open_after};
ghost use Rattle.ruled_lock.specs.Lock.{IsOf};
ghost use Rattle.ruled_lock.specs.Pass.{IsIdle, charter_of, mine_of, seen_of, worker_of};
ghost use Rattle.worker_gate.specs.code.Asking.{AsksOwn};
ghost use Rattle.worker_gate.specs.code.Inputs.{AddsOfInputs, IsFilledOf};
ghost use Rattle.worker_gate.specs.code.Telling.{IsToldOf};
ghost use Rattle.worker_gate.specs.code.Tending.{CanFinish, Finishes, failures_in};
ghost use Rattle.worker_gate.specs.code.Turning.{IsHeldFor, IsPlanOf, KeepsTurn, LeasesOwn, NoneOpenBy, NoneOpenFor, plan_of, told_of};

use crate::telling::{finish_told, lease_told, lend_told};
use craft::Gate;
use lease_rules::own_entries_tell_open_tasks;
use outside::{Host, Memory, TaskId, Tool};
use plan_core::Plan;
use ruled_lock::{Pass, RuledLock};
use run_record::Cause;
use site_yard::{Leased, Loan, Yard};
use std::alloc::Global;
use std::sync::Wait;
use task_work::Filled;

/// Copies the plan in a first turn.
pub(crate) fn copy_plan<R: Wait, H: Host, T: Tool>(
    rt: &R,
    alloc: Global,
    lock: &RuledLock<Yard<H, T>>,
    pass: &mut Pass<Yard<H, T>>,
) -> Result<Plan, Memory>
    requires of { IsOf lock.now pass.old }
    requires idle { IsIdle pass.old }
    requires none_open { IfSome (charter_of pass.old)
        (λ g. NoneOpenFor g (worker_of pass.old) (seen_of pass.old)) }
    ensures keeps { KeepsTurn lock.now pass.old pass.new }
    ensures mine { mine_of pass.new ≡ mine_of pass.old }
    ensures none_open { NoneOpenBy (mine_of pass.old) }
    ensures plan { IsPlanOf (charter_of pass.old) result }
    ensures told { (xs : List (ℕ × Event)) → IsToldOf (worker_of pass.old) (seen_of pass.old) (seen_of pass.new) xs xs }
{
    // A law for the proof: it does nothing.
    own_entries_tell_open_tasks();
    let yard = lock.take(rt, pass);
    let plan = yard.plan().copy(alloc);
    lock.give(pass, yard);
    plan
}

/// Leases.
pub(crate) fn lease<R: Wait, H: Host, T: Tool, G: Gate>(
    rt: &R,
    alloc: Global,
    lock: &RuledLock<Yard<H, T>>,
    pass: &mut Pass<Yard<H, T>>,
    gate: &mut G,
) -> Leased
    requires of { IsOf lock.now pass.old }
    requires idle { IsIdle pass.old }
    requires worker { worker_of pass.old < 16 }
    requires none_open { NoneOpenBy (mine_of pass.old) }
    ensures keeps { KeepsTurn lock.now pass.old pass.new }
    ensures leased { LeasesOwn (charter_of pass.old) (worker_of pass.old) (mine_of pass.old)
        (mine_of pass.new) (seen_of pass.new) result }
    ensures inputs { IfSome (charter_of pass.old)
        (λ g. AddsOfInputs T.apply (plan_of g) (mine_of pass.old) (mine_of pass.new)) }
    ensures asked { AsksOwn (mine_of pass.old) (mine_of pass.new) (G.asked gate.old) (G.asked gate.new) }
    ensures told { IsToldOf (worker_of pass.old) (seen_of pass.old) (seen_of pass.new) (G.told gate.old)
        (G.told gate.new) }
{
    own_entries_tell_open_tasks();
    let mut yard = lock.take(rt, pass);
    let leased = lease_told(alloc, &mut yard, pass.worker(), gate);
    lock.give(pass, yard);
    leased
}

/// Makes the loan of a task that is open, or adds why there is none.
pub(crate) fn begin<R: Wait, H: Host, T: Tool, G: Gate>(
    rt: &R,
    alloc: Global,
    lock: &RuledLock<Yard<H, T>>,
    pass: &mut Pass<Yard<H, T>>,
    task: TaskId,
    gate: &mut G,
) -> Option<Loan<H>>
    requires of { IsOf lock.now pass.old }
    requires idle { IsIdle pass.old }
    requires open { is_open_after task.0 false (mine_of pass.old) ≡ true }
    ensures keeps { KeepsTurn lock.now pass.old pass.new }
    ensures held { IfSome result (λ l. IsHeldFor T.apply (charter_of pass.old) task.0
        (map H.Reading.state l.readings.items) (map H.Draft.state l.drafts.items)) }
    ensures mine { IfSome result (λ l. mine_of pass.new ≡ mine_of pass.old) }
    ensures gate { G.asked gate.new ≡ G.asked gate.old }
    ensures none { IfNone result (Finishes (worker_of pass.old) task.0 0 (mine_of pass.old)
        (mine_of pass.new)) }
    ensures inputs { IfSome (charter_of pass.old)
        (λ g. AddsOfInputs T.apply (plan_of g) (mine_of pass.old) (mine_of pass.new)) }
    ensures asked { AsksOwn (mine_of pass.old) (mine_of pass.new) (G.asked gate.old) (G.asked gate.new) }
    ensures told { IsToldOf (worker_of pass.old) (seen_of pass.old) (seen_of pass.new) (G.told gate.old)
        (G.told gate.new) }
{
    // Laws for the proof: they do nothing.
    own_entries_tell_open_tasks();
    let mut yard = lock.take(rt, pass);
    let lent = lend_told(alloc, &mut yard, pass.worker(), task, gate);
    lock.give(pass, yard);
    lent
}

/// Settles the loan of a task that is open, or abandons it.
pub(crate) fn finish<R: Wait, H: Host, T: Tool, G: Gate>(
    rt: &R,
    alloc: Global,
    lock: &RuledLock<Yard<H, T>>,
    pass: &mut Pass<Yard<H, T>>,
    task: TaskId,
    loan: Loan<H>,
    filled: Result<Filled, Cause>,
    gate: &mut G,
)
    requires of { IsOf lock.now pass.old }
    requires idle { IsIdle pass.old }
    requires open { is_open_after task.0 false (mine_of pass.old) ≡ true }
    requires can { IfSome (charter_of pass.old)
        (λ g. CanFinish T.apply (plan_of g) g.opened g.marked (told_of g) task.0
        (map H.Reading.state loan.readings.items) (map H.Draft.state loan.drafts.items) filled) }
    requires inputs { IfSome (charter_of pass.old) (λ g. IsFilledOf T.apply (plan_of g) task.0 filled) }
    ensures keeps { KeepsTurn lock.now pass.old pass.new }
    ensures finishes { Finishes (worker_of pass.old) task.0 (failures_in filled) (mine_of pass.old)
        (mine_of pass.new) }
    ensures inputs { IfSome (charter_of pass.old)
        (λ g. AddsOfInputs T.apply (plan_of g) (mine_of pass.old) (mine_of pass.new)) }
    ensures asked { (ts : List ℕ) → G.asked gate.old ≡ ts ++ task.0 ∷ []
        → AsksOwn (mine_of pass.old) (mine_of pass.new) ts (G.asked gate.new) }
    ensures told { IsToldOf (worker_of pass.old) (seen_of pass.old) (seen_of pass.new) (G.told gate.old)
        (G.told gate.new) }
{
    own_entries_tell_open_tasks();
    let mut yard = lock.take(rt, pass);
    finish_told(alloc, &mut yard, pass.worker(), task, loan, filled, gate);
    lock.give(pass, yard);
}
