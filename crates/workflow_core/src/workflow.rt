//! A workflow after its document.

use serde_json::Value;
use values::{FileId, Items, JobId, Text};

/// A list of jobs, the pairs of a job and one that comes after it, and the files in order of first
/// appearance with the first size that a use gives each, in bytes.
pub struct Workflow {
    pub name: Text,
    pub jobs: Items<Job>,
    pub pairs: Items<(JobId, JobId)>,
    pub files: Items<Text>,
    pub sizes: Items<Option<u64>>,
    pub inlined: Inlined,
    /// The paths of the document's keys that aren't acted on, in byte order.
    pub ignored: Items<Text>,
}

impl Drop for Workflow {
    fn drop(self) {
        let Workflow {
            name,
            jobs,
            pairs,
            files,
            sizes,
            inlined,
            ignored,
        } = self;
    }
}

/// One use of a transformation. The profiles are kept as texts.
pub struct Job {
    pub id: Text,
    pub transformation: Transformation,
    pub arguments: Items<Text>,
    pub inputs: Items<FileId>,
    pub outputs: Items<Output>,
    pub label: Option<Text>,
    pub cluster_size: Option<Text>,
    pub cluster_num: Option<Text>,
    pub pinned: Option<Text>,
}

impl Drop for Job {
    fn drop(self) {
        let Job {
            id,
            transformation,
            arguments,
            inputs,
            outputs,
            label,
            cluster_size,
            cluster_num,
            pinned,
        } = self;
    }
}

/// A file that a job makes. It is delivered where `stage_out` is set, and registered where `register` is.
#[derive(Clone, Copy, PartialEq, Eq)]
pub struct Output {
    pub file: FileId,
    pub stage_out: bool,
    pub register: bool,
}

/// What a job runs. An absent and an empty namespace or version are different.
pub struct Transformation {
    pub namespace: Option<Text>,
    pub name: Text,
    pub version: Option<Text>,
}

impl Drop for Transformation {
    fn drop(self) {
        let Transformation {
            namespace,
            name,
            version,
        } = self;
    }
}

/// The catalogues that stand in the workflow's own document, as trees.
pub struct Inlined {
    pub sites: Option<Value>,
    pub replicas: Option<Value>,
    pub transformations: Option<Value>,
}

impl Drop for Inlined {
    fn drop(self) {
        let Inlined {
            sites,
            replicas,
            transformations,
        } = self;
    }
}
