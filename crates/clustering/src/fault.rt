//! Why jobs can't be clustered.

ghost use Rattle.std.specs.Prelude.{◌≡◌};
ghost use Rattle.clustering.specs.declared.fault.ClusterFault.TheVariants as faults;

use values::{Items, Memory, Text};

#[derive(Drop)]
pub enum ClusterFault {
    /// The id of a job, and the key of its profile that is no number.
    BadNumber(Text, Text),
    /// A label, and the ids of two jobs with it at different sites.
    LabelOverSites(Text, Text, Text),
    /// The ids of the first jobs of the clusters of a cycle.
    ClusterCycle(Items<Text>),
    Memory,
}

impl From<Memory> for ClusterFault {
    ghost from_gives = { λ _ e. e ≡ faults.Memory };

    fn from(_e: Memory) -> ClusterFault {
        ClusterFault::Memory
    }
}
