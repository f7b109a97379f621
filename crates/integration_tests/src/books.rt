//! What a book tells once its first file came.

ghost use Rattle.std.specs.Prelude.{◌≤◌};
ghost use Rattle.plan_core.specs.code.Proper.{IsProper};
ghost use Rattle.plan_core.specs.Words.{retries};
ghost use Rattle.storage_simulation.specs.code.Goods.{IsWithinLimits};

use crate::sketches::{DIAMOND_CLEANED, plan_of};
use crate::storage::is_limited;
use lease_book::{Book, Next};
use plan_core::{Plan, check};
use std::alloc::Global;
use std::test::Fail;
use storage_simulation::order;
use values::{Memory, Policy, SiteId, TaskId};

/// The book of a plan's order, if there is one.
fn book_of(alloc: Global, plan: Plan) -> Result<Option<Book>, Memory>
    requires proper { IsProper plan }
    requires limits { IsWithinLimits plan }
    requires retries { retries plan ≤ 10 }
{
    match order(alloc, plan) {
        Ok(ordered) => {
            let book = Book::open(alloc, &ordered);
            drop(ordered);
            Ok(Some(book?))
        }
        Err(refused) => {
            drop(refused);
            Ok(None)
        }
    }
}

/// The diamond's file of 10 bytes comes, 8 long; then its first job is to begin, whose files have 20.
fn is_told(book: &mut Book) -> bool {
    let came = TaskId(4);
    let begins = matches!(book.next(0), Next::Task(TaskId(4)));
    if !begins || book.reserved(SiteId(0)) != 10 || !book.allows_arrive(0, came, 8) {
        return false;
    }
    book.arrive(0, came, 8);
    matches!(book.rest_task(0), Some(TaskId(0)))
        && matches!(book.next(1), Next::Task(TaskId(0)))
        && book.stored(SiteId(0)) == 8
        && book.reserved(SiteId(0)) == 20
}

fn is_right(alloc: Global) -> Result<bool, Memory> {
    let plan = plan_of(alloc, &DIAMOND_CLEANED, Policy::plain())?;
    let Ok(proper) = check(alloc, &plan) else {
        drop(plan);
        return Err(Memory);
    };
    if !proper || !is_limited(&plan) || plan.retries() > 10 {
        drop(plan);
        return Ok(false);
    }
    match book_of(alloc, plan)? {
        Some(mut book) => {
            let answer = is_told(&mut book);
            drop(book);
            Ok(answer)
        }
        None => Ok(false),
    }
}

#[test]
fn book_of_the_diamond(rt: HostRuntime) -> Result<(), Fail> {
    assert!(rt; is_right(rt.alloc()).ok() == Some(true));
    Ok(())
}
