//! The replay of a record without its Fails.

ghost use Rattle.std.specs.Prelude.{◌≡◌, ◌≤◌, ◌++◌, ◌∷◌, [], IfOk};
ghost use Rattle.plan_core.specs.code.Proper.{IsProper};
ghost use Rattle.plan_core.specs.Words.{retries, task_numbers};
ghost use Rattle.run_record.specs.code.Events.{event};
ghost use Rattle.lease_book.specs.Book.{state_at};
ghost use Rattle.lease_rules.specs.code.Law.{FitsFromStart};
ghost use Rattle.lease_rules.specs.Legal.{Allowed, Legal};
ghost use Rattle.lease_rules.specs.code.Reading.{is_fail};
ghost use Rattle.resume_run.specs.Replaying.{HasFollowed, IsReplayed, Replays, without_fails};

use crate::law::records_without_fails_are_legal;
use crate::lost::{Lost, lost_tasks};
use lease_book::Book;
use lease_rules::ordered_plans_fit;
use plan_core::Plan;
use record_audit::{Verdict, audit};
use run_record::{Entry, Record};
use std::alloc::Global;
use storage_simulation::Ordered;
use values::Memory;

/// Why a record isn't gone on with: the number, from 1, of its first entry that isn't allowed, or want of memory.
#[derive(Clone, Copy, PartialEq, Eq)]
pub enum ReplayFault {
    Illegal(u64),
    Memory,
}

/// A book at a record without its Fails, and the tasks that are open in it, by number.
#[derive(Drop)]
pub struct Replayed {
    pub book: Book,
    pub lost: Vec<Lost>,
}

/// Whether an entry is a Fail.
pub(crate) fn is_fail(entry: &Entry<'_>) -> bool
    ensures { result ≡ is_fail (event entry.now) }
{
    matches!(entry, Entry::Fail { .. })
}

/// Adds an entry that is allowed.
fn follow(plan: &Plan, book: &mut Book, entry: &Entry<'_>)
    requires plan { book.old.plan ≡ plan.now }
    requires proper { IsProper plan.now }
    requires fits { FitsFromStart plan.now (task_numbers book.old.order.items) }
    requires allowed { Allowed book.old.plan (state_at book.old) (event entry.now) }
    ensures history { book.new.history.events ≡ book.old.history.events ++ event entry.now ∷ [] }
    ensures plan { book.new.plan ≡ book.old.plan }
    ensures order { book.new.order ≡ book.old.order }
{
    record_audit::replay(plan, book, entry);
}

/// A book at the entries of a Legal record without its Fails.
fn followed(alloc: Global, ordered: &Ordered, history: &Record) -> Result<Book, Memory>
    requires retries { retries ordered.now.plan ≤ 10 }
    requires legal { Legal ordered.now.plan (task_numbers ordered.now.tasks.items) history.now.events }
    ensures { IfOk result (HasFollowed ordered.now.plan (task_numbers ordered.now.tasks.items)
        (without_fails history.now.events)) }
{
    // Laws for the proof: they do nothing.
    ordered_plans_fit();
    records_without_fails_are_legal();
    let mut book = Book::open(alloc, ordered)?;
    for k in 0..history.len() {
        let entry = history.entry(k);
        if !is_fail(&entry) {
            follow(ordered.plan(), &mut book, &entry);
        }
    }
    Ok(book)
}

/// The same, with the tasks that are open.
fn with_lost(alloc: Global, ordered: &Ordered, history: &Record) -> Result<Replayed, Memory>
    requires retries { retries ordered.now.plan ≤ 10 }
    requires legal { Legal ordered.now.plan (task_numbers ordered.now.tasks.items) history.now.events }
    ensures { IfOk result (λ x. IsReplayed ordered.now.plan
        (task_numbers ordered.now.tasks.items) history.now.events x.book x.lost.items) }
{
    // A law for the proof: it does nothing.
    records_without_fails_are_legal();
    let book = followed(alloc, ordered, history)?;
    let count = ordered.plan().tasks.as_slice().len();
    let lost = lost_tasks(alloc, &book, count as u32)?;
    Ok(Replayed { book, lost })
}

/// Replays a record without its Fails on a book of the plan, if it is Legal. It takes memory twice as an audit does.
pub fn replay(alloc: Global, ordered: &Ordered, history: &Record) -> Result<Replayed, ReplayFault>
    requires { retries ordered.now.plan ≤ 10 }
    ensures { Replays ordered.now.plan (task_numbers ordered.now.tasks.items) history.now.events result }
{
    match audit(alloc, ordered, history) {
        Ok(Verdict::Illegal(k)) => Err(ReplayFault::Illegal(k)),
        Ok(Verdict::Complete | Verdict::Legal) => match with_lost(alloc, ordered, history) {
            Ok(replayed) => Ok(replayed),
            Err(Memory) => Err(ReplayFault::Memory),
        },
        Err(Memory) => Err(ReplayFault::Memory),
    }
}
