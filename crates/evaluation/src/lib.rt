//! The evaluation of a workflow: the value of each file, over the bases that a host has.
//!
//! [`values_of`] looks up the source of each file that no job makes (`sources`) and the tool of each
//! job (`job_tools`), reads the bases (`bases`), and has `workflow_eval` run the jobs.
//! `specs/Evaluating.antt` says how it ends, and [`evaluations_finish`] when it ends with values.
//! [`value_text`] makes the lines that tell those of the requested files (`specs/Values.antt`).
#![tactic(auto)]

mod bases;
mod evaluating;
mod fault;
mod job_tools;
mod law;
mod sources;
mod value_lines;

pub use evaluating::values_of;
pub use fault::EvaluationFault;
pub use law::evaluations_finish;
pub use value_lines::value_text;
