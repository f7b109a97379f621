//! Directed graphs on the numbers below a count.
//!
//! A [`Digraph`] is made from its edges, or from lists of predecessors ([`add_pairs`] adds edges to
//! such lists), and answers a topological order, the one cycle that is named, and distances. It
//! stands on `values` for want of memory alone, and knows nothing of jobs.
//!
//! `specs/code/Digraph.antt` has what an edge is, and the files after it in `specs/Lib.antt` say what an
//! order, a distance and the named cycle are, of any relation between numbers. An order exists
//! exactly where no node returns to itself.
#![tactic(auto)]

mod adjacency;
mod cycle;
mod digraph;
mod distances;
mod finishing;
mod kahn;
mod law;
mod nearest;
mod order;
mod queries;
mod ranks;
mod search;

pub use adjacency::add_pairs;
pub use digraph::Digraph;
pub use law::{an_order_excludes_a_cycle, the_named_cycle_is_one};
