//! Workflow documents: a workflow is the one that its document's definition gives, `read_of` of `specs/Workflow.antt`.
//!
//! The tree part has one file for each object of the format: its table, its reading and its unknown keys
//! (`root`, `job_entry`, `use_entry`, `dependency`). `linking` makes the workflow of what
//! was read.
#![tactic(auto)]

mod argument;
mod constant_text;
mod dependency;
mod document;
mod duplicates;
mod files;
mod job_entry;
mod job_linking;
mod linking;
mod pairs;
mod reader;
mod root;
mod use_entry;

pub use reader::{from_tree, read};
