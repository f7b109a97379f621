//! The plain values that every layer speaks of: bytes, texts, numbers, lines of words, and files by name.
//!
//! The definitions stand in `specs/`. What a run meets outside itself is `outside`.
#![tactic(auto)]

mod blob;
mod documents;
mod file_map;
mod items;
mod line;
mod memory;
mod numbers;
mod policy;
mod printed;
mod select_fault;
mod site_map;
mod text;

pub use blob::Blob;
pub use documents::Documents;
pub use file_map::FileMap;
pub use items::Items;
pub use line::{Word, push_line};
pub use memory::Memory;
pub use numbers::{FileId, JobId, PairId, SiteId, TaskId};
pub use policy::Policy;
pub use select_fault::SelectFault;
pub use site_map::SiteMap;
pub use text::Text;
