//! Transformation catalogues: a catalogue is the one that its document's definition gives, `read_of` of
//! `specs/Catalog.antt`.
//!
//! The tree part has one file for each object of the format: its table, its reading and its unknown keys
//! (`root`, `transformation_entry`, `transformation_site`). `duplicates` refuses a transformation that comes
//! twice, and `lookup` finds a transformation's entry.
#![tactic(auto)]

mod catalog;
mod duplicates;
mod key;
mod lookup;
mod reader;
mod root;
mod transformation_entry;
mod transformation_site;

pub use catalog::{TransformationCatalog, TransformationEntry, TransformationSite};
pub use key::Key;
pub use lookup::Entries;
pub use reader::{from_tree, read};
