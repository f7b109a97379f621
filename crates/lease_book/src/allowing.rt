//! What may be entered, decided beforehand.

ghost use Rattle.std.specs.Prelude.{◌≡◌, false, Decides};
ghost use Rattle.plan_core.specs.Words.{task_numbers};
ghost use Rattle.run_record.specs.Events.{Arrive, Clean, End};
ghost use Rattle.lease_book.specs.Book.{state_at};
ghost use Rattle.lease_rules.specs.Choice.{IsChoice};
ghost use Rattle.lease_rules.specs.Legal.{Allowed, ArePublished, MayFail};

use crate::book::Book;
use crate::choice::choose;
use crate::sizes::{are_declared, are_published, is_declared};
use values::TaskId;

/// Workers have numbers below this one.
const MOST_WORKERS: u32 = 16;

impl Book {
    /// Whether a task is the Choice.
    fn is_choice(&self, task: u32) -> bool
        ensures { Decides result (IsChoice self.now.plan (state_at self.now) task) }
    {
        if self.state.failing {
            return false;
        }
        match choose(&self.plan, &self.state) {
            Some(found) => found == task,
            None => false,
        }
    }

    /// Whether the Arrive of a task at a size is allowed.
    pub fn allows_arrive(&self, worker: u32, task: TaskId, size: u64) -> bool
        ensures { Decides result (Allowed self.now.plan (state_at self.now) (Arrive worker task.0 size)) }
    {
        if worker >= MOST_WORKERS || !self.plan.is_transfer(task) {
            return false;
        }
        if !self.holds(worker, task) {
            return false;
        }
        is_declared(&self.plan, task, size)
    }

    /// Whether the End of a task with these sizes is allowed.
    pub fn allows_end(&self, worker: u32, task: TaskId, sizes: &[u64]) -> bool
        ensures { Decides result (Allowed self.now.plan (state_at self.now) (End worker task.0 sizes.now)) }
    {
        if worker >= MOST_WORKERS || !self.plan.is_run(task) {
            return false;
        }
        if !self.holds(worker, task) {
            return false;
        }
        are_declared(&self.plan, task, sizes)
    }

    /// Whether the Clean of a task is allowed.
    pub fn allows_clean(&self, worker: u32, task: TaskId) -> bool
        ensures { Decides result (Allowed self.now.plan (state_at self.now) (Clean worker task.0)) }
    {
        if worker >= MOST_WORKERS || !self.plan.is_clean(task) {
            return false;
        }
        self.is_choice(task.0)
    }

    /// Whether a task may fail.
    pub fn may_fail(&self, worker: u32, task: TaskId) -> bool
        ensures { Decides result (MayFail self.now.plan (state_at self.now) worker task.0) }
    {
        if self.holds(worker, task) {
            return true;
        }
        if !self.plan.is_clean(task) {
            return false;
        }
        self.is_choice(task.0)
    }

    /// Whether a task may have published files of these sizes before it failed.
    pub fn may_have_published(&self, task: TaskId, sizes: &[u64]) -> bool
        ensures { Decides result (ArePublished self.now.plan task.0 sizes.now) }
    {
        are_published(&self.plan, task, sizes)
    }
}
