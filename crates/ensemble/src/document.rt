//! What an ensemble's document says.

use plan_request::{Cleanup, ClusterMode, Execution};
use values::{Items, Policy, Text};

/// A whole ensemble: its members, and the keys that are the same for all of them.
pub struct Ensemble {
    pub members: Items<MemberEntry>,
    pub execute: Items<Execution>,
    pub cluster: ClusterMode,
    pub cleanup: Cleanup,
    /// Whether files that are registered are made again.
    pub force: bool,
    pub policy: Policy,
}

impl Drop for Ensemble {
    fn drop(self) {
        let Ensemble {
            members,
            execute,
            cluster,
            cleanup,
            force,
            policy,
        } = self;
    }
}

/// A member: its name, and that of its request's document.
#[derive(Drop)]
pub struct MemberEntry {
    pub name: Text,
    pub request: Text,
}
