//! Workers over a yard.
//!
//! [`run_many`] lets up to sixteen workers share a yard by a `RuledLock`, each in a thread of its own, and joins them
//! all (`specs/code/Many.antt`); all read one copy of the plan. [`work`] is one of them (`specs/code/Working.antt`),
//! and does each of its steps in a turn of the lock (`specs/code/Turning.antt`). [`run_alone`] is one worker that has
//! the yard to itself and waits for nobody (`specs/code/Alone.antt`), and [`do_task`] does one task that is open
//! (`specs/code/Stepping.antt`). A task's bytes move between two turns: the first makes a loan of readings and drafts,
//! `task_work` fills the drafts, and the second settles the loan or abandons it (`specs/code/Tending.antt`). What an
//! entry says of the bytes that were read, told or not, is in `specs/code/Inputs.antt`. A worker's gate is told each
//! entry that the worker has added, with its place in the record, before the turn ends (`specs/Telling.antt`).
#![tactic(auto)]

mod alone;
mod hands;
mod law;
mod many;
mod stepping;
mod telling;
mod tending;
mod turning;
mod working;

pub use alone::run_alone;
pub use law::empty_records_have_none_open;
pub use many::{ManyEnd, run_many};
pub use stepping::do_task;
pub use working::work;
