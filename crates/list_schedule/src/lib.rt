//! A list schedule after HEFT: the kept jobs by falling upward rank, each at the candidate where it
//! finishes first, `IsHeft` of `specs/Schedule.antt`.
//!
//! It is defined over what jobs are estimated at (`specs/Estimates.antt`), and made from tables of
//! this by [`schedule_by`]: `ranks` finds the upward ranks, `order` the jobs' order by them, `placing` places them. The
//! answer, a [`Heft`], has for each job its site and when it begins and ends, in seconds; a law says that a schedule is
//! sound ([`schedules_are_sound`]).
#![tactic(auto)]

mod arrivals;
mod board;
mod by_tables;
mod choice;
mod heft;
mod law;
mod order;
mod placing;
mod ranks;

pub use by_tables::schedule_by;
pub use heft::Heft;
pub use law::schedules_are_sound;
