//! Positions of a sequence, each in a group, some of them with a number: the least number of a group before a position.
//!
//! To the layer above a [`GroupIndex`] is the function `number` of `specs/Index.antt` from positions to numbers, and a
//! list of groups by position. A change of a number and a question cost a walk up a tree. [`GroupIndex::renew`] gives
//! the same groups to the positions in another order.
#![tactic(auto)]

mod index;
mod seating;

pub use index::GroupIndex;
