//! A schedule of jobs.

use values::{JobId, SiteId};

/// The site of each job, the kept jobs in the order in which they were placed, and when each job
/// begins and ends, in seconds. A dropped job has no site, and begins and ends at 0.
#[derive(Drop)]
pub struct Heft {
    pub sites: Vec<Option<SiteId>>,
    pub order: Vec<JobId>,
    pub starts: Vec<u128>,
    pub finishes: Vec<u128>,
}
