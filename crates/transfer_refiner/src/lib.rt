//! The plan of a workflow whose jobs are clustered and placed: a Run for each cluster, the Transfers that bring files to
//! their sites, the deliveries, and for whom each task waits.
//!
//! What is planned is a `Draft` (`specs/Draft.antt`), and `specs/code/Conditions.antt` says what is asked of it.
//! [`refine`] answers the one plan of `specs/Refined.antt`, or the first fault of `specs/Tasks.antt`. Every answer is
//! proper, as `plan_core` has it ([`refined_plan_is_proper`]).
//!
//! The plan is worked out over graphs of numbers: which part holds each job and which files stand at each site
//! (`edges`, `tables`), what has to move (`listing`), the numbers of pairs (`places`), and who writes what others read
//! (`waiting`).
#![tactic(auto)]

mod copying;
mod edges;
mod fault;
mod jobs;
mod lacking;
mod law;
mod listing;
mod marked;
mod meaning;
mod places;
mod refining;
mod rows;
mod singles;
mod sources;
mod tables;
mod tasks;
mod view;
mod waiting;

pub use fault::RefineFault;
pub use law::{cleans_are_counted, refined_plan_is_proper, refined_plan_is_small};
pub use meaning::refined_plan_means_the_workflow;
pub use refining::refine;
pub use singles::single_jobs_are_a_draft;
