//! Request documents: a request is the one that its document's definition gives, `read_of` of `specs/Request.antt`.
//!
//! One file for each object of the format (`root`, `execution`, `size_entries`, `tool_entries`, `runtime`).
//! The format is this project's own, so a key that is in no table is a fault (`known`).
#![tactic(auto)]

mod execution;
mod file_sizes;
mod index;
mod job_tools;
mod known;
mod modes;
mod reader;
mod request;
mod root;
mod run_policy;
mod runtime;
mod selection;
mod size_entries;
mod tool_entries;

pub use file_sizes::declared_sizes;
pub use job_tools::Tools;
pub use known::only_known;
pub use modes::{cleanup, cluster};
pub use reader::read;
pub use request::{
    Cleanup, ClusterMode, Execution, PlanRequest, Runtime, Selector, SizeOf, ToolOf,
};
pub use run_policy::policy;
