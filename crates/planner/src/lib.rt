//! From a request and its documents to its plan, or to the first fault.
//!
//! `survey` reads the documents in their course, which `specs/code/Course.antt` states: the workflow, the
//! catalogues that hold, the execution sites, the graph. `plan` goes on from there, as
//! `specs/code/Planning.antt` says: the kept jobs, their sites by the request's selector
//! (`specs/Sites.antt`), their clusters, the tasks, the Cleans, the order. A [`Surveyed`] keeps what
//! is known of a request and its survey, so that no caller says it again. `PlanFault` has every
//! reason why planning ends, and `push_refused` its line; `check_text` tells what a survey has,
//! `schedule_survey` and `schedule_text` the list schedule of its jobs.
#![tactic(auto)]

mod catalogue;
mod course;
mod deliveries;
mod document;
mod inputs;
mod law;
mod meaning;
mod ordering;
mod plan_fault;
mod planning;
mod refused;
mod schedule_lines;
mod scheduling;
mod sites;
mod survey_text;
mod surveyed;

pub use course::survey;
pub use deliveries::plans_deliver_requests;
pub use document::Document;
pub use inputs::Survey;
pub use meaning::plans_mean_the_workflow;
pub use plan_fault::{PlanFault, of_read_fault};
pub use planning::{plan, plan_survey};
pub use refused::push_refused;
pub use schedule_lines::schedule_text;
pub use scheduling::schedule_survey;
pub use survey_text::check_text;
pub use surveyed::{Surveyed, survey_request};

// What requests, surveys, plans and faults are made of, so that a crate above names what its own lines name.
pub use cleanup_refiner;
pub use clustering;
pub use data_reuse;
pub use dependency_graph;
pub use digraph;
pub use heft_selector;
pub use indexmap;
pub use list_schedule;
pub use peg_json;
pub use plan_core;
pub use plan_request;
pub use replica_catalog;
pub use serde_json;
pub use site_catalog;
pub use site_selector;
pub use storage_simulation;
pub use transfer_refiner;
pub use transformation_catalog;
pub use values;
pub use workflow_core;
pub use workflow_reader;
