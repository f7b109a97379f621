//! The book of a run: its record, and which tasks may begin next.
//!
//! To the layer above a book is its record: a list of entries that is always legal (`lease_rules` says what that is);
//! what the calls of a book answer is in `specs/Book.antt`. A book shows the state by arrays and, of the tasks that are
//! left, by the trees of `place_peaks`, of which it asks the Choice. The start of a task is tried, in a second
//! standing, only for a fresh order. After [`Book::open`] or [`Book::over`] no call takes memory.
#![tactic(auto)]

mod allowing;
mod asking;
mod book;
mod choice;
mod entries;
mod fresh;
mod goods;
mod holding;
mod items;
mod leasing;
mod sizes;
mod state;
mod sums;
mod trial;

pub use book::Book;
pub use leasing::Next;
