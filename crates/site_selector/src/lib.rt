//! Sites of jobs: the kept jobs take turns in order of (level, number), and a job's turn chooses among the
//! execution sites that have its transformation, `Selects` of `specs/Selecting.antt`.
//!
//! `offers` finds which sites have each transformation, `candidates` gives one
//! job its site, and `selecting` all of them.
#![tactic(auto)]

mod candidates;
mod law;
mod offers;
mod selecting;

pub use candidates::candidates_of;
pub use law::selected_sites_are_placed;
pub use offers::Offers;
pub use selecting::select;
