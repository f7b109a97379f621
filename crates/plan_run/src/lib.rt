//! The run of a plan with its order: by one worker, or by several, each in a thread of its own.
//!
//! [`run_plan`] and [`run_plan_by`] open a yard, have its workers do the plan, and give back how the run ended, its
//! text and its host. What a run is, whatever its end, is `specs/Running.antt`: one record, allowed entry by entry,
//! which the host's store, its counts and the tools' counts show; the end and the text are read off it. That nothing
//! but a counted failure, or want of memory, keeps a run that can be done from its end is [`runs_finish`].
#![tactic(auto)]

mod law;
mod members;
mod run_text;
mod running;
mod running_many;

pub use law::{deliveries_stay_within_the_output, runs_finish};
pub use run_text::print_run;
pub use running::{Ran, end_run, refuse_run, run_plan};
pub use running_many::run_plan_by;
