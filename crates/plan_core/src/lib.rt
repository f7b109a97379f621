//! A plan: what each task reads and writes at which site, and for whom it waits.
//!
//! The layers above ask a plan by number, in the words of `specs/Words.antt`, each a method. What a task reads
//! and writes follows from its kind: `specs/Kinds.antt`. A proper plan is one whose tables, tasks and their order
//! are right: `specs/code/Proper.antt`; [`check`] tells exactly whether a plan is proper, and the laws say what
//! follows. What a task carries is defined in `specs/Carried.antt`, and [`print`] gives the text of
//! `specs/code/Printing.antt`. That no task waits for itself stands on `digraph`.
#![tactic(auto)]

mod checking;
mod copying;
mod files;
mod flow;
mod law;
mod listing;
mod plan;
mod printing;
mod rising;
mod tables;
mod tasks;
mod words;

pub use checking::check;
pub use copying::{copied, kind_copied, texts_copied};
pub use files::{SiteFiles, files_read, files_written};
pub use law::{
    carried_is_carried_along, each_pair_has_one_writer, files_are_listed_by_pair,
    numbers_are_in_range, pairs_stand_once, parents_come_before, parents_write_what_is_read,
    rising_lists_are_one, some_task_is_first, ways_back_end,
};
pub use plan::{Pair, Plan, PlanFile, PlanJob, PlanSite, Source, Target, Task, TaskKind};
pub use printing::print;
pub use rising::{is_among, sorted};
