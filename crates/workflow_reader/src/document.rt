//! What stands in a workflow's document, before its files and jobs have numbers.

use values::{Items, Text};
use workflow_core::{Inlined, Transformation};

/// A whole document.
#[derive(Drop)]
pub struct Document {
    pub name: Text,
    pub jobs: Items<JobEntry>,
    pub dependencies: Items<Dependency>,
    pub inlined: Inlined,
}

/// A job with the uses of files that it states.
#[derive(Drop)]
pub struct JobEntry {
    pub id: Text,
    pub transformation: Transformation,
    pub arguments: Items<Text>,
    pub uses: Items<Use>,
    pub label: Option<Text>,
    pub cluster_size: Option<Text>,
    pub cluster_num: Option<Text>,
    pub pinned: Option<Text>,
}

/// A file that a job reads or makes. Both flags are true where the document doesn't state them.
#[derive(Drop)]
pub struct Use {
    pub lfn: Text,
    pub direction: Direction,
    pub stage_out: bool,
    pub register: bool,
    pub size: Option<u64>,
}

#[derive(Clone, Copy, PartialEq, Eq)]
pub enum Direction {
    Input,
    Output,
}

/// The jobs that come after the job of this id.
#[derive(Drop)]
pub struct Dependency {
    pub id: Text,
    pub children: Items<Text>,
}
