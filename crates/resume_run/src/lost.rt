//! The tasks that were open when a run stopped.

ghost use Rattle.std.specs.Prelude.{◌≡◌, ◌<◌, ◌≤◌, ◌^◌, IfOk, ℕ};
ghost use Rattle.storage_simulation.specs.declared.standing.Phase.TheVariants.{Runs};
ghost use Rattle.lease_book.specs.Book.{state_at};
ghost use Rattle.resume_run.specs.Lost.{HaveFewWorkers, lost_below, owner};

use lease_book::Book;
use std::alloc::Global;
use values::{Memory, TaskId};

/// Workers have numbers below this one.
const MOST_WORKERS: u32 = 16;

/// A task that is open, and the worker for whom it is.
#[derive(Clone, Copy, PartialEq, Eq)]
pub struct Lost {
    pub worker: u32,
    pub task: TaskId,
}

/// The worker for whom a task is open.
fn owner(book: &Book, task: TaskId) -> Option<u32>
    requires { HaveFewWorkers (state_at book.now) }
    ensures { result ≡ owner (state_at book.now) task.0 }
{
    for worker in 0..MOST_WORKERS {
        if book.holds(worker, task) {
            return Some(worker);
        }
    }
    None
}

/// The open tasks among the first ones, by number.
pub(crate) fn lost_tasks(alloc: Global, book: &Book, count: u32) -> Result<Vec<Lost>, Memory>
    requires { HaveFewWorkers (state_at book.now) }
    ensures { IfOk result (λ lost. lost.items ≡ lost_below (state_at book.now) count) }
{
    let mut lost = Vec::new(alloc);
    for number in 0..count {
        let task = TaskId(number);
        if let Some(worker) = owner(book, task) {
            lost.push(Lost { worker, task })?;
        }
    }
    Ok(lost)
}
