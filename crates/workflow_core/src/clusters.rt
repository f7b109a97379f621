//! Jobs put together into tasks.

use values::{Items, JobId};

/// The clusters of kept jobs, each in the order in which its jobs run.
#[derive(Drop)]
pub struct Clusters {
    pub parts: Items<Items<JobId>>,
}
