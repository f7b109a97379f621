//! A list of numbers, of which a front is raised or lowered at once and the greatest of a front is known.
//!
//! The layer above sees a list with a number, or none, at each position; `specs/Numbers.antt` says what becomes
//! of it. Inside is a binary tree (`specs/Node.antt`), of which a call visits the nodes on the way to one position.
//! Each visit goes through `node::visit` and is a step of the caller's counter, over std's ledgers: a call adds at
//! most 4 d + 4, and `refill` at most 4 * 2^d, for each d with a length of at most 2^d.
//! No call takes memory but `of`.
#![tactic(auto)]

mod change;
mod law;
mod node;
mod shape;
mod steps;
mod tree;

pub use law::{add_front_by_position, filled_by_position, greatest_is_the_greatest};
pub use steps::Steps;
pub use tree::PeakTree;
