//! Workloads that a rehearsal runs: a workflow shaped like Montage over so many images, with its
//! catalogues, its request and its replicas.
//!
//! To the layer above a workload is its documents and its images, byte by byte: `specs/Making.antt`
//! names them, `specs/Workflow.antt` has the files and the jobs as tables, and `specs/Jobs.antt`
//! the text of a job.
#![tactic(auto)]

mod catalogues;
mod images;
mod jobs;
mod making;
mod names;
mod pieces;
mod replicas;
mod workflow;

pub use making::{Workload, montage};
