//! What a book tells of its record.

ghost use Rattle.std.specs.Prelude.{◌≡◌, slice_get, option_map, Decides};
ghost use Rattle.values.specs.declared.numbers.TaskId.{TaskId};
ghost use Rattle.plan_core.specs.Words.{task_numbers};
ghost use Rattle.lease_book.specs.Book.{state_at};
ghost use Rattle.lease_rules.specs.code.Law.{IsSafeState};
ghost use Rattle.lease_rules.specs.Law.{reserved_at, stored_at};
ghost use Rattle.lease_rules.specs.Legal.{IsOpen, Legal};

use crate::book::Book;
use crate::sums;
use place_peaks::peaks_are_seated;
use run_record::Record;
use storage_simulation::Held;
use values::{PairId, SiteId, TaskId};

impl Book {
    /// Whether a task is open for a worker.
    pub fn holds(&self, worker: u32, task: TaskId) -> bool
        ensures { Decides result (IsOpen (state_at self.now) worker task.0) }
    {
        self.state.holds(worker, task.0)
    }

    /// The task at a position of rest.
    pub fn rest_task(&self, k: usize) -> Option<TaskId>
        ensures { option_map (λ (t : TaskId). t.0) result ≡ slice_get (state_at self.now).rest k }
    {
        peaks_are_seated();
        self.state.peaks.rest_task(k)
    }

    /// The bytes that are stored at a site, or at the output, whose number follows the last site's.
    pub fn stored(&self, site: SiteId) -> u64
        ensures { result ≡ stored_at self.now.plan (state_at self.now).held site.0 }
    {
        sums::stored_at(&self.plan, &self.state.standing, site.0)
    }

    /// The bytes that are reserved at a site, or at the output.
    pub fn reserved(&self, site: SiteId) -> u64
        ensures { result ≡ reserved_at self.now.plan (state_at self.now).held site.0 }
    {
        sums::reserved_at(&self.plan, &self.state.standing, site.0)
    }

    /// What is held of a pair.
    pub fn held(&self, pair: PairId) -> Held
        ensures { result ≡ (state_at self.now).held pair.0 }
    {
        sums::held_of(&self.state.standing, pair.0)
    }

    /// Whether a Fail stands.
    pub fn is_failing(&self) -> bool
        ensures { result ≡ (state_at self.now).failing }
    {
        self.state.failing
    }

    /// The record, which is Legal.
    pub fn record(&self) -> &Record
        ensures value { result.now ≡ self.now.history }
        ensures legal { ∥ Legal self.now.plan (task_numbers self.now.order.items) result.now.events ∥₁ }
        ensures safe { IsSafeState self.now.plan (state_at self.now) }
    {
        &self.history
    }
}
