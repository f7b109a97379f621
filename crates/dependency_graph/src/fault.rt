//! Why a workflow has no graph.

ghost use Rattle.std.specs.Prelude.{◌≡◌};
ghost use Rattle.dependency_graph.specs.declared.fault.GraphFault.TheVariants.{Memory};

use values::{Items, Memory, Text};

#[derive(Drop)]
pub enum GraphFault {
    /// A file's name, and the ids of the first two jobs that make it.
    TwoProducers(Text, Text, Text),
    /// The ids of the jobs of a cycle.
    Cycle(Items<Text>),
    Memory,
}

impl From<Memory> for GraphFault {
    ghost from_gives = { λ _ e. e ≡ Memory };

    fn from(_e: Memory) -> GraphFault {
        GraphFault::Memory
    }
}
