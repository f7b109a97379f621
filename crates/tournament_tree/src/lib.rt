//! The least of some keys that change, each under its number of a place.
//!
//! To the layer above a [`Tree`] is the function `entry rows 0` from places to keys, and [`Tree::least_between`] is the
//! least key of a range of places, as `IsLeast` of `specs/Tree.antt` says it. Over the row of keys stands a row of the
//! lesser one of each two, and so on, so that a change and a question walk up the rows once.
#![tactic(auto)]

mod tree;

pub use tree::{Key, Tree, lesser};
