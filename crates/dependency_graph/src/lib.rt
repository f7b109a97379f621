//! The graph of a workflow's jobs.
//!
//! An edge leads from a job to one that reads a file it makes, or that is stated to come after it:
//! `specs/Edges.antt`. [`build`] answers the graph (`specs/Graph.antt`) exactly where each file has
//! at most one producer and no job returns to itself; `specs/Built.antt` has the faults. What an order
//! and the named cycle are stands in `digraph`, which searches.
//!
//! The level of a kept job is one more than the greatest of its kept parents: `specs/Levels.antt`. [`ranked`]
//! lists the kept jobs in order of (level, number): `specs/Ranking.antt`.
//!
//! The value of a file is defined in `specs/Value.antt`. Laws in `value.rt` and `flow.rt` say that nothing
//! else fits together so, and that values flow along the graph's order (`specs/code/Flow.antt`).
#![tactic(auto)]

mod built;
mod edges;
mod fault;
mod flow;
mod graph;
mod levels;
mod makers;
mod ranking;
mod sources;
mod value;

pub use built::build;
pub use edges::producer_is_the_first_maker;
pub use fault::GraphFault;
pub use flow::{makers_come_before, values_flow_in_order};
pub use graph::Graph;
pub use levels::levels_are_determined;
pub use ranking::ranked;
pub use value::{value_is_determined, value_is_made_of_values};
