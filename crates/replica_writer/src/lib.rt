//! Replica catalogues of what runs deliver.
//!
//! To the layer above a written catalogue is what is read of it: exactly the delivered files that have their
//! registration flag, each with its one pfn and its digest (`catalogue_says` of `specs/Writer.antt`, a clause of
//! [`catalogue`]). Its bytes are the compact text of a tree (`specs/Document.antt`), and a pfn is the path at which
//! `host_files` delivers (`specs/Pfn.antt`). That a run's deliveries can be written, and that planning with a catalogue
//! which has every requested file keeps no job, are laws (`specs/Law.antt`).
#![tactic(auto)]

mod document;
mod law;
mod pfn;
mod writer;

pub use law::{
    catalogues_read_back, deliveries_can_be_written, nothing_is_kept, written_files_keep_nothing,
};
pub use pfn::pfn_of;
pub use writer::catalogue;
