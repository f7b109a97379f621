//! Whether a record is legal.

ghost use Rattle.std.specs.Prelude.{◌≡◌, ◌≤◌, IfOk, Decides};
ghost use Rattle.plan_core.specs.code.Proper.{IsProper};
ghost use Rattle.plan_core.specs.Words.{retries, task_numbers};
ghost use Rattle.lease_book.specs.Book.{state_at};
ghost use Rattle.lease_rules.specs.code.Law.{FitsFromStart};
ghost use Rattle.lease_rules.specs.Legal.{IsComplete};
ghost use Rattle.record_audit.specs.Verdict.{IsJudged};

use crate::law::legal_records_are_consistent;
use crate::replaying::replay;
use lease_book::{Book, Next};
use lease_rules::ordered_plans_fit;
use run_record::Record;
use std::alloc::Global;
use storage_simulation::Ordered;
use values::Memory;

/// What an audit finds: every task has ended and none failed; no more than that each entry was
/// allowed; or the number, from 1, of the first entry that wasn't.
#[derive(Clone, Copy, PartialEq, Eq)]
pub enum Verdict {
    Complete,
    Legal,
    Illegal(u64),
}

/// Whether a book's record is complete; nothing is done with the book after this.
fn is_complete(book: &mut Book) -> bool
    requires proper { IsProper book.old.plan }
    requires fits { FitsFromStart book.old.plan (task_numbers book.old.order.items) }
    ensures { Decides result (IsComplete book.old.plan (state_at book.old)) }
{
    // A law for the proof: it does nothing.
    legal_records_are_consistent();
    // The record is Legal, for the proof.
    let _ = book.record();
    match book.next(0) {
        Next::Done => true,
        _ => false,
    }
}

/// Whether a record is complete for an ordered plan, or legal, or which of its entries is the first
/// that isn't allowed. It takes memory once, before the first entry.
pub fn audit(alloc: Global, ordered: &Ordered, history: &Record) -> Result<Verdict, Memory>
    requires { retries ordered.now.plan ≤ 10 }
    ensures { IfOk result (IsJudged ordered.now.plan
        (task_numbers ordered.now.tasks.items) history.now.events) }
{
    // A law for the proof: it does nothing.
    ordered_plans_fit();
    let mut book = Book::open(alloc, ordered)?;
    for k in 0..history.len() {
        if !replay(ordered.plan(), &mut book, &history.entry(k)) {
            drop(book);
            return Ok(Verdict::Illegal(k as u64 + 1));
        }
    }
    if is_complete(&mut book) {
        drop(book);
        return Ok(Verdict::Complete);
    }
    drop(book);
    Ok(Verdict::Legal)
}
