//! Which jobs have to run: those of which an output that isn't registered is requested, or is read by a job
//! that has to run (`specs/Kept.antt`). Every other job is dropped.
//!
//! [`kept`] walks a graph's order once, from its end: `needed` has a flag for each file that is requested or
//! that a kept job reads.
#![tactic(auto)]

mod absent;
mod flags;
mod law;
mod walk;

pub use law::kept_is_least;
pub use walk::kept;
