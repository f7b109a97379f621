//! What a worker may do next in a yard.

ghost use Rattle.std.specs.Prelude.{◌≡◌, ◌<◌, ◌-◌, length, slice_get};
ghost use Rattle.site_yard.specs.code.Leased.{failed_as};

use outside::TaskId;
use run_record::{Entry, Record};

/// What a lease answers: a task granted, or a Clean that was swept, has failed, or is to be tried again.
#[derive(Clone, Copy)]
pub enum Leased {
    Granted(TaskId),
    Swept(TaskId),
    Failed(TaskId),
    Again(TaskId),
    NotYet,
    Done,
    Stopped,
}

/// The answer after a failure, by the entry that it added.
pub(crate) fn failed(history: &Record, task: TaskId) -> Leased
    requires { 0 < length history.now.events }
    ensures { result ≡ failed_as task (slice_get history.now.events (length history.now.events - 1)) }
{
    match history.entry(history.len() - 1) {
        Entry::Again { .. } => Leased::Again(task),
        _ => Leased::Failed(task),
    }
}
