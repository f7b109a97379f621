//! Replica catalogues: a catalogue is the one that its document's definition gives, `read_of` of `specs/Catalog.antt`.
//!
//! Each object of the format has a file with its table, its reading and its unknown keys (`root`, `replica`, `pfn`,
//! `checksum`), over `peg_json`. `joining` makes one entry of those that a document has of a file
//! (`specs/Lookup.antt`), so that each lfn is there once. `lookup` finds an entry by its lfn.
#![tactic(auto)]

mod catalog;
mod checksum;
mod joining;
mod lookup;
mod merged;
mod pfn;
mod reader;
mod replica;
mod root;

pub use catalog::{Pfn, Replica, ReplicaCatalog};
pub use lookup::Replicas;
pub use reader::{from_tree, read};
