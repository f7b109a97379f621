//! The book of leases: a record, and what follows from it.

ghost use Rattle.std.specs.Prelude.{◌≡◌, ◌≤◌, [], IfErr, IfOk};
ghost use Rattle.plan_core.specs.code.Proper.{IsProper, IsProper-prop};
ghost use Rattle.plan_core.specs.Words.{retries, task_numbers};
ghost use Rattle.storage_simulation.specs.code.Goods.{IsWithinLimits};
ghost use Rattle.storage_simulation.specs.code.Bench.{IsFor};
ghost use Rattle.lease_book.specs.Kept.{IsBook, IsBook-prop};
ghost use Rattle.lease_rules.specs.code.Law.{FitsFromStart};
ghost use Rattle.lease_book.specs.Trial.{HasPlace};

use crate::goods::all_made;
use crate::state::RunState;
use crate::trial::Trial;
use lease_rules::storage_laws;
use plan_core::Plan;
use run_record::Record;
use std::alloc::Global;
use storage_simulation::{Bench, Ordered};
use values::{Memory, TaskId};

/// A plan's order, the record of its run, and room for all that may still come.
pub struct Book {
    pub(crate) plan: Plan,
    pub(crate) order: Vec<TaskId>,
    pub(crate) history: Record,
    pub(crate) state: RunState,
    pub(crate) trial: Trial,
    pub(crate) bench: Bench,
    ghost proper: { IsProper plan } by { IsProper-prop plan },
    ghost kept: { IsBook plan (task_numbers order.items) history state } by { IsBook-prop plan
        (task_numbers order.items) history state },
    ghost place: { HasPlace plan trial },
    ghost fresh: { IsFor plan bench },
}

impl Drop for Book {
    fn drop(self) {
        let Book {
            plan,
            order,
            history,
            state,
            trial,
            bench,
        } = self;
    }
}

fn copied(alloc: Global, tasks: &[TaskId]) -> Result<Vec<TaskId>, Memory>
    ensures { IfOk result (λ copy. copy.items ≡ tasks.now) }
{
    Ok(tasks.iter().copied().collect(alloc)?)
}

/// What a book has beside its plan and its order.
struct Rest {
    history: Record,
    state: RunState,
    trial: Trial,
    bench: Bench,
}

/// What a book of a plan and its order has beside them, without entries.
fn rest_of(alloc: Global, plan: &Plan, order: &[TaskId]) -> Result<Rest, Memory>
    requires proper { IsProper plan.now }
    requires limits { IsWithinLimits plan.now }
    requires retries { retries plan.now ≤ 10 }
    requires order { FitsFromStart plan.now (task_numbers order.now) }
    ensures history { IfOk result (λ r. r.history.events ≡ []) }
    ensures kept { IfOk result (λ r. IsBook plan.now (task_numbers order.now) r.history r.state) }
    ensures place { IfOk result (λ r. HasPlace plan.now r.trial) }
    ensures fresh { IfOk result (λ r. IsFor plan.now r.bench) }
{
    storage_laws();
    let tasks = plan.tasks.as_slice().len();
    let tries = plan.retries() as usize + 1;
    let history = Record::with_room(alloc, tasks * (2 * tries), tries * all_made(plan))?;
    let state = RunState::open(alloc, plan, order)?;
    let trial = Trial::new(alloc, plan)?;
    let bench = Bench::new(alloc, plan)?;
    Ok(Rest {
        history,
        state,
        trial,
        bench,
    })
}

impl Book {
    /// A book of a copy of an ordered plan, without entries. It takes all memory: no later call takes any.
    pub fn open(alloc: Global, ordered: &Ordered) -> Result<Book, Memory>
        requires { retries ordered.now.plan ≤ 10 }
        ensures history { IfOk result (λ b. b.history.events ≡ []) }
        ensures plan { IfOk result (λ b. b.plan ≡ ordered.now.plan) }
        ensures order { IfOk result (λ b. b.order.items ≡ ordered.now.tasks.items) }
    {
        let plan = ordered.plan().copy(alloc)?;
        let order = copied(alloc, ordered.tasks())?;
        let rest = rest_of(alloc, ordered.plan(), ordered.tasks())?;
        Ok(Book::with(plan, order, rest))
    }

    /// The same of an ordered plan that is given over, and that comes back where memory is wanting.
    pub fn over(alloc: Global, ordered: Ordered) -> Result<Book, Ordered>
        requires { retries ordered.plan ≤ 10 }
        ensures history { IfOk result (λ b. b.history.events ≡ []) }
        ensures plan { IfOk result (λ b. b.plan ≡ ordered.plan) }
        ensures order { IfOk result (λ b. b.order ≡ ordered.tasks) }
        ensures back { IfErr result (λ o. o ≡ ordered) }
    {
        match rest_of(alloc, ordered.plan(), ordered.tasks()) {
            Ok(rest) => {
                let (plan, order) = ordered.into_parts();
                Ok(Book::with(plan, order, rest))
            }
            Err(Memory) => Err(ordered),
        }
    }

    fn with(plan: Plan, order: Vec<TaskId>, rest: Rest) -> Book
        requires proper { IsProper plan }
        requires kept { IsBook plan (task_numbers order.items) rest.history rest.state }
        requires place { HasPlace plan rest.trial }
        requires fresh { IsFor plan rest.bench }
        ensures history { result.history ≡ rest.history }
        ensures plan { result.plan ≡ plan }
        ensures order { result.order ≡ order }
    {
        let Rest {
            history,
            state,
            trial,
            bench,
        } = rest;
        Book {
            plan,
            order,
            history,
            state,
            trial,
            bench,
        }
    }

    /// The plan of the record.
    pub fn plan(&self) -> &Plan
        ensures { result.now ≡ self.now.plan }
    {
        &self.plan
    }

    /// The record, given over.
    pub fn into_record(self) -> Record
        ensures { result ≡ self.history }
    {
        let Book {
            plan,
            order,
            history,
            state,
            trial,
            bench,
        } = self;
        history
    }
}
