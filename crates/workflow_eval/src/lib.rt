//! Plain evaluation of a workflow's files.
//!
//! The value of a file that no job makes is its base, that of another its part of what its producer makes of
//! the values of the producer's inputs: `specs/Value.antt` of `dependency_graph`, whose laws say that nothing
//! else fits together so. [`evaluate_in`] runs the jobs of a `workflow_core::Workflow` in the order of its graph
//! over one table, each by its tool's name; `specs/Evaluating.antt` says what it answers.
#![tactic(auto)]

mod evaluating;
mod fault;
mod file_table;

pub use evaluating::{evaluate, evaluate_in};
pub use fault::EvalFault;
