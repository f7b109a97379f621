//! One entry of a record, replayed on a book.

ghost use Rattle.std.specs.Prelude.{◌≡◌, ◌++◌, ◌∷◌, [], List, true, Decides};
ghost use Rattle.plan_core.specs.code.Proper.{IsProper};
ghost use Rattle.plan_core.specs.Words.{task_numbers};
ghost use Rattle.run_record.specs.Events.{Event, Arrive, Clean, End, is_second};
ghost use Rattle.run_record.specs.code.Events.{event};
ghost use Rattle.lease_book.specs.Book.{state_at};
ghost use Rattle.lease_rules.specs.code.Law.{FitsFromStart};
ghost use Rattle.lease_rules.specs.Legal.{Allowed};
ghost use Rattle.record_audit.specs.Replaying.{EndsSo, Grew, failing, granting};

use crate::causes::cause_fits;
use crate::law::legal_records_are_consistent;
use lease_book::{Book, Next};
use lease_rules::choice_is_one;
use plan_core::Plan;
use run_record::{Cause, Entry, Record};
use values::TaskId;

/// Workers have numbers below this one.
const MOST_WORKERS: u32 = 16;

/// Whether the last entry is one of a retry or of a fresh order.
fn ends_second(history: &Record) -> bool
    ensures { (r : List Event) (e : Event) → history.now.events ≡ r ++ e ∷ [] → result ≡ is_second e }
{
    let count = history.len();
    count > 0 && history.entry(count - 1).is_second()
}

/// Whether the last entry is of that kind, or isn't.
fn ends_so(history: &Record, second: bool) -> bool
    ensures { EndsSo history.now.events second result }
{
    if ends_second(history) {
        second
    } else {
        !second
    }
}

/// The same of an entry more than there were.
fn grew_by(history: &Record, before: usize, second: bool) -> bool
    ensures { Grew history.now.events before second result }
{
    if history.len() == before {
        return false;
    }
    ends_so(history, second)
}

/// Lets a worker begin what is next, and tells whether that was the task, granted by a fresh order
/// or by the kept one.
fn begins(book: &mut Book, worker: u32, task: TaskId, fresh: bool) -> bool
    ensures value { Decides result (Allowed book.old.plan (state_at book.old)
        (granting fresh worker task.0)) }
    ensures history { result ≡ true
        → book.new.history.events ≡ book.old.history.events ++ granting fresh worker task.0 ∷ [] }
    ensures plan { book.new.plan ≡ book.old.plan }
    ensures order { book.new.order ≡ book.old.order }
{
    // A law for the proof: it does nothing.
    choice_is_one();
    if worker >= MOST_WORKERS {
        return false;
    }
    let before = book.record().len();
    match book.next(worker) {
        Next::Task(found) => {
            if found.0 == task.0 {
                grew_by(book.record(), before, fresh)
            } else {
                false
            }
        }
        _ => false,
    }
}

/// Enters the failure of a task, and tells whether it may fail so, and whether it was to be tried
/// again.
fn fails(
    plan: &Plan,
    book: &mut Book,
    worker: u32,
    task: TaskId,
    cause: &Cause,
    published: &[u64],
    again: bool,
) -> bool
    requires plan { book.old.plan ≡ plan.now }
    requires proper { IsProper plan.now }
    requires fits { FitsFromStart plan.now (task_numbers book.old.order.items) }
    ensures value { Decides result (Allowed book.old.plan (state_at book.old)
        (failing again worker task.0 cause.now published.now)) }
    ensures history { result ≡ true
        → book.new.history.events ≡ book.old.history.events
        ++ failing again worker task.0 cause.now published.now ∷ [] }
    ensures plan { book.new.plan ≡ book.old.plan }
    ensures order { book.new.order ≡ book.old.order }
{
    // A law for the proof: it does nothing.
    legal_records_are_consistent();
    if worker >= MOST_WORKERS || !cause_fits(plan, book, task, cause, published) {
        return false;
    }
    if !book.may_fail(worker, task) {
        return false;
    }
    // The record is Legal, for the proof.
    let _ = book.record();
    book.fail(worker, task, cause, published);
    ends_so(book.record(), again)
}

/// Enters the Arrive of a task, if it is allowed.
fn arrives(book: &mut Book, worker: u32, task: TaskId, size: u64) -> bool
    ensures value { Decides result (Allowed book.old.plan (state_at book.old) (Arrive worker task.0 size)) }
    ensures history { result ≡ true
        → book.new.history.events ≡ book.old.history.events ++ Arrive worker task.0 size ∷ [] }
    ensures plan { book.new.plan ≡ book.old.plan }
    ensures order { book.new.order ≡ book.old.order }
{
    let allowed = book.allows_arrive(worker, task, size);
    if allowed {
        book.arrive(worker, task, size);
    }
    allowed
}

/// Enters the End of a task, if it is allowed.
fn ends(book: &mut Book, worker: u32, task: TaskId, sizes: &[u64]) -> bool
    ensures value { Decides result (Allowed book.old.plan (state_at book.old) (End worker task.0 sizes.now)) }
    ensures history { result ≡ true
        → book.new.history.events ≡ book.old.history.events ++ End worker task.0 sizes.now ∷ [] }
    ensures plan { book.new.plan ≡ book.old.plan }
    ensures order { book.new.order ≡ book.old.order }
{
    let allowed = book.allows_end(worker, task, sizes);
    if allowed {
        book.end(worker, task, sizes);
    }
    allowed
}

/// Enters the Clean of a task, if it is allowed.
fn cleans(book: &mut Book, worker: u32, task: TaskId) -> bool
    ensures value { Decides result (Allowed book.old.plan (state_at book.old) (Clean worker task.0)) }
    ensures history { result ≡ true
        → book.new.history.events ≡ book.old.history.events ++ Clean worker task.0 ∷ [] }
    ensures plan { book.new.plan ≡ book.old.plan }
    ensures order { book.new.order ≡ book.old.order }
{
    let allowed = book.allows_clean(worker, task);
    if allowed {
        book.clean(worker, task);
    }
    allowed
}

/// Adds an entry to a book of the plan, if it is allowed there. Where it isn't, the book is of no
/// use any more: its record may have another entry in its place.
pub fn replay(plan: &Plan, book: &mut Book, entry: &Entry<'_>) -> bool
    requires plan { book.old.plan ≡ plan.now }
    requires proper { IsProper plan.now }
    requires fits { FitsFromStart plan.now (task_numbers book.old.order.items) }
    ensures value { Decides result (Allowed book.old.plan (state_at book.old) (event entry.now)) }
    ensures history { result ≡ true
        → book.new.history.events ≡ book.old.history.events ++ event entry.now ∷ [] }
    ensures plan { book.new.plan ≡ book.old.plan }
    ensures order { book.new.order ≡ book.old.order }
{
    match entry {
        Entry::Grant { worker, task } => begins(book, *worker, *task, false),
        Entry::Regrant { worker, task } => begins(book, *worker, *task, true),
        Entry::Arrive { worker, task, size } => arrives(book, *worker, *task, *size),
        Entry::End {
            worker,
            task,
            sizes,
        } => ends(book, *worker, *task, sizes),
        Entry::Clean { worker, task } => cleans(book, *worker, *task),
        Entry::Fail {
            worker,
            task,
            cause,
            published,
        } => fails(plan, book, *worker, *task, cause, published, false),
        Entry::Again {
            worker,
            task,
            cause,
            published,
        } => fails(plan, book, *worker, *task, cause, published, true),
    }
}
