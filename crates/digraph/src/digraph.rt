//! A directed graph on the numbers below a count.

ghost use Rattle.std.specs.Prelude.{◌<◌, ◌^◌, length};
ghost use Rattle.digraph.specs.code.Adjacency.{lists_of, AreLinked, AreLinked-prop};

/// The predecessors and the successors of each node.
#[derive(Drop)]
pub struct Digraph {
    pub(crate) predecessors: Vec<Vec<u32>>,
    pub(crate) successors: Vec<Vec<u32>>,
    ghost few: { length predecessors.items < 2 ^ 32 },
    ghost linked: { AreLinked (lists_of predecessors.items) (lists_of successors.items) } by { AreLinked-prop
        (lists_of predecessors.items) (lists_of successors.items) },
}
