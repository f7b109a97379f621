//! Sites by a list schedule: the schedule of a request is `IsHeft` of `list_schedule` over what the
//! request and the catalogue estimate, `estimates` of `specs/Selecting.antt`.
//!
//! `candidates`, `times` and `moves` find these estimates; `select` has the schedule made of them.
#![tactic(auto)]

mod candidates;
mod law;
mod moves;
mod select;
mod times;

pub use law::scheduled_sites_are_placed;
pub use list_schedule::Heft;
pub use select::select_heft;
