//! The workflow after its document: jobs, files by number, and the pairs of dependent jobs.
//!
//! A workflow is plain data to the layers above; `specs/WellFormed.antt` says what every reader gives
//! and every planning call asks of one.
#![tactic(auto)]

mod checking;
mod clusters;
mod law;
mod names;
mod workflow;

pub use checking::is_well_formed;
pub use clusters::Clusters;
pub use law::names_are_numbered;
pub use names::Names;
pub use workflow::{Inlined, Job, Output, Transformation, Workflow};
