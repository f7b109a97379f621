//! The kept jobs put together into clusters: each alone, in runs of jobs of one level, site and transformation, or by
//! label, as `ClustersAre` of `specs/code/Clusters.antt` says.
//!
//! Jobs are put together by what they have in common (`gathering`): first groups, then the runs of these (`runs`); or
//! labels (`labels`), whose clusters can lead round (`cycles`). A law says that clusters can be made tasks
//! (`specs/code/Condition.antt`): each kept job is in one, and one after the other they can be done.
//!
//! [`cluster`] answers the clusters, or the first fault: a profile that is no number, a label at two sites, or a cycle
//! of clusters, named by the first jobs of its clusters ([`ClusterFault`]).
#![tactic(auto)]

mod basis;
mod by_label;
mod clusters;
mod cycles;
mod fault;
mod gathering;
mod horizontal;
mod labels;
mod law;
mod numbers;
mod runs;
mod singles;

pub use clusters::cluster;
pub use fault::ClusterFault;
pub use law::{clusters_are_parts, kept_jobs_are_clustered};
