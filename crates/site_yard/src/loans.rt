//! Loans of a yard: made, settled or abandoned. Each adds one entry at most.

ghost use Rattle.std.specs.Prelude.{◌≡◌, ◌++◌, ◌∷◌, [], IfErr, IfNone, IfOk, IfSome, length, map, take};
ghost use Rattle.plan_core.specs.Words.{kind, reads};
ghost use Rattle.lease_book.specs.Book.{failure, state_at};
ghost use Rattle.lease_rules.specs.Legal.{CauseFits, IsOpen};
ghost use Rattle.site_yard.specs.code.Failures.{AreMore, IsCounted, IsMore};
ghost use Rattle.site_yard.specs.code.Kept.{IsOpening};
ghost use Rattle.site_yard.specs.code.Lending.{RefusesLoan, count_parts};
ghost use Rattle.site_yard.specs.code.Loan.{AreReadings, CanSettle, IsLent, IsLoan, fresh_at, targets};
ghost use Rattle.site_yard.specs.code.Yard.{Adds, IsBehind, IsFailure, IsSameYard, IsSettled, IsTold, IsWorkers, TakesPublished, TakesWithin};

use crate::delivered::keep;
use crate::law::{plan_laws, record_laws};
use crate::lending::{Loan, make_loan};
use crate::moving::scratch_cause;
use crate::returning::{discard_all, finish_all, publish_all};
use crate::yard::Yard;
use outside::{Host, TaskId, Tool};
use run_record::Cause;
use std::alloc::Global;

/// The size of the one draft of a Transfer.
fn only_size(sizes: &[u64]) -> u64
    requires { length sizes.now ≡ 1 }
    ensures { sizes.now ≡ result ∷ [] }
{
    sizes[0]
}

impl<H: Host, T: Tool> Yard<H, T> {
    /// Opens the readings and makes the drafts of a task that is open, or adds a failure. While the loan is out the yard
    /// knows nothing of it.
    pub fn lend(&mut self, alloc: Global, worker: u32, task: TaskId) -> Option<Loan<H>>
        requires open { IsOpen (state_at self.old.book) worker task.0 }
        ensures history { IfSome result (λ l. self.new.book.history.events ≡ self.old.book.history.events) }
        ensures lent { IfSome result (λ l. IsLent T.apply self.old.ordered.value.plan
            (take self.old.opened self.old.book.history.events) (H.marked self.old.host)
            (H.told self.old.host) task.0 (map H.Reading.state l.readings.items)
            (map H.Draft.state l.drafts.items)) }
        ensures asked { IfSome result (λ l. AreMore (count_parts self.old.ordered.value.plan task.0) 0 0
            (H.counts self.old.host) (H.counts self.new.host)) }
        ensures none { IfNone result (Adds self.old.book.history.events self.new.book.history.events
            (IsFailure worker task.0) (TakesWithin (count_parts self.old.ordered.value.plan task.0))
            (H.told self.old.host) (H.counts self.old.host) (H.counts self.new.host)) }
        ensures told { H.told self.new.host ≡ H.told self.old.host }
        ensures same { IsSameYard self.old self.new }
    {
        plan_laws();
        record_laws();
        let made = make_loan(self.book.plan(), &mut self.host, alloc, task);
        if let Err(cause) = &made {
            self.book.fail(worker, task, cause, &[]);
        }
        made.ok()
    }

    /// Publishes the drafts of a loan in order, and adds an Arrive, with what was delivered, or an End; or a failure of the
    /// host or want of memory, with the sizes of the drafts that were published. All parts are given back.
    pub fn settle(
        &mut self,
        alloc: Global,
        worker: u32,
        task: TaskId,
        loan: Loan<H>,
        sizes: &[u64],
        digest: Option<[u8; 32]>,
    )
        requires open { IsOpen (state_at self.old.book) worker task.0 }
        requires settles { CanSettle T.apply self.old.ordered.value.plan
            (take self.old.opened self.old.book.history.events) (H.marked self.old.host)
            (H.told self.old.host) task.0 (map H.Reading.state loan.readings.items)
            (map H.Draft.state loan.drafts.items) sizes.now digest }
        ensures entry { Adds self.old.book.history.events self.new.book.history.events
            (IsSettled self.old.ordered.value.plan worker task.0 sizes.now)
            (TakesPublished (length (targets self.old.ordered.value.plan task.0))) (H.told self.old.host)
            (H.counts self.old.host) (H.counts self.new.host) }
        ensures same { IsSameYard self.old self.new }
    {
        plan_laws();
        record_laws();
        let Loan { readings, drafts } = loan;
        finish_all(&mut self.host, readings);
        let done = publish_all(&mut self.host, alloc, drafts);
        match done.refused {
            Some(fault) => {
                let cause = scratch_cause(fault);
                self.book.fail(worker, task, &cause, &sizes[..done.count]);
            }
            None => {
                let plan = self.book.plan();
                if plan.is_transfer(task) {
                    let size = only_size(sizes);
                    keep(plan, &mut self.delivered, task, size, digest);
                    self.book.arrive(worker, task, size);
                } else {
                    self.book.end(worker, task, sizes);
                }
            }
        }
    }

    /// Gives the parts of a loan back, publishes nothing, and adds the failure that a worker tells. It takes no memory.
    pub fn abandon(&mut self, worker: u32, task: TaskId, loan: Loan<H>, cause: &Cause)
        requires open { IsOpen (state_at self.old.book) worker task.0 }
        requires loan { IsLoan self.old.ordered.value.plan (H.told self.old.host) task.0
            (map H.Reading.state loan.readings.items) (map H.Draft.state loan.drafts.items) }
        requires kind { IsWorkers cause.now }
        requires fits { CauseFits self.old.ordered.value.plan task.0 cause.now [] }
        requires shown { IsBehind (map H.Reading.state loan.readings.items)
            (map H.Draft.state loan.drafts.items) cause.now }
        requires told { IsOpening T.apply self.old.ordered.value.plan
            (take self.old.opened self.old.book.history.events) (H.marked self.old.host)
            → IsTold T.apply self.old.ordered.value.plan (H.marked self.old.host)
            (H.told self.old.host) task.0 cause.now }
        ensures entry { self.new.book.history.events
            ≡ self.old.book.history.events ++ failure self.old.ordered.value.plan
            (state_at self.old.book) worker task.0 cause.now [] ∷ [] }
        ensures counted { IsCounted (H.told self.old.host) (H.counts self.old.host) (H.counts self.new.host)
            (failure self.old.ordered.value.plan (state_at self.old.book) worker task.0 cause.now []) }
        ensures asked { IsMore 0 (H.counts self.old.host).done (H.counts self.new.host).done }
        ensures told { H.told self.new.host ≡ H.told self.old.host }
        ensures same { IsSameYard self.old self.new }
    {
        let Loan { readings, drafts } = loan;
        finish_all(&mut self.host, readings);
        discard_all(&mut self.host, drafts);
        self.book.fail(worker, task, cause, &[]);
    }
}
