//! Leases of a yard: a task granted, or a Clean done at once.

ghost use Rattle.std.specs.Prelude.{◌≡◌, ◌<◌, Some};
ghost use Rattle.plan_core.specs.declared.plan.TaskKind.TheVariants.{Clean};
ghost use Rattle.plan_core.specs.Words.{kind};
ghost use Rattle.lease_book.specs.Book.{state_at};
ghost use Rattle.lease_rules.specs.Choice.{IsChoice};
ghost use Rattle.site_yard.specs.code.Yard.{IsSameYard, Leases};

use crate::law::{plan_laws, record_laws};
use crate::leased::{Leased, failed};
use crate::moving::sweep_pair;
use crate::names::swept_pair;
use crate::yard::Yard;
use lease_book::Next;
use outside::{Host, PairId, TaskId, Tool};
use std::alloc::Global;

impl<H: Host, T: Tool> Yard<H, T> {
    /// Removes the pair of a Clean that is the Choice, and adds its Clean or a failure.
    fn sweep(&mut self, alloc: Global, worker: u32, task: TaskId, pair: PairId) -> Leased
        requires worker { worker < 16 }
        requires choice { IsChoice self.old.book.plan (state_at self.old.book) task.0 }
        requires kind { kind self.old.book.plan task.0 ≡ Some (Clean pair) }
        ensures leased { Leases self.old.book.plan
            (state_at self.old.book) worker self.old.book.history.events self.new.book.history.events
            (H.told self.old.host) (H.counts self.old.host) (H.counts self.new.host) result }
        ensures same { IsSameYard self.old self.new }
    {
        plan_laws();
        record_laws();
        match sweep_pair(self.book.plan(), &mut self.host, alloc, pair) {
            Ok(()) => {
                self.book.clean(worker, task);
                Leased::Swept(task)
            }
            Err(cause) => {
                self.book.fail(worker, task, &cause, &[]);
                failed(self.book.record(), task)
            }
        }
    }

    /// The next task that may begin: granted, or, where it is a Clean, swept.
    pub fn lease(&mut self, alloc: Global, worker: u32) -> Leased
        requires { worker < 16 }
        ensures leased { Leases self.old.ordered.value.plan
            (state_at self.old.book) worker self.old.book.history.events self.new.book.history.events
            (H.told self.old.host) (H.counts self.old.host) (H.counts self.new.host) result }
        ensures same { IsSameYard self.old self.new }
    {
        match self.book.next(worker) {
            Next::Task(task) => {
                match swept_pair(self.book.plan(), task) {
                    Some(pair) => self.sweep(alloc, worker, task, pair),
                    None => Leased::Granted(task),
                }
            }
            Next::Done => Leased::Done,
            Next::Stopped => Leased::Stopped,
            Next::NotYet => Leased::NotYet,
        }
    }
}
