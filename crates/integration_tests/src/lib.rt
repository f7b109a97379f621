//! Public calls at concrete types, each once, where no case shows it.
//!
//! The tests stand apart from the crates that they call: a crate with tests is proved twice, once with
//! them, and here only they are proved, over the contracts of what they call. What they call is made by
//! hand (`by_hand`, `sketches`), since a reader's contract makes a test long to prove.
#![tactic(auto)]

#[cfg(test)]
mod books;
#[cfg(test)]
mod by_hand;
#[cfg(test)]
mod files;
#[cfg(test)]
mod graphs;
#[cfg(test)]
mod peaks;
#[cfg(test)]
mod records;
#[cfg(test)]
mod sketches;
#[cfg(test)]
mod storage;
