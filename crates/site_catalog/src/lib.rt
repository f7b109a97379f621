//! Site catalogues: a catalogue is the one that its document's definition gives, `read_of` of `specs/Catalog.antt`.
//!
//! Each object of the format has a file with its table, its reading and its unknown keys (`root`, `site_entry`,
//! `directory`, `file_server`), over `peg_json`. Site names are distinct, and there are at most 64.
#![tactic(auto)]

mod catalog;
mod directory;
mod file_server;
mod reader;
mod root;
mod site_entry;

pub use catalog::{Directory, FileServer, SiteCatalog, SiteEntry};
pub use reader::{from_tree, read};
