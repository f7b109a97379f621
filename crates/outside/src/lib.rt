//! What a run meets outside itself.
//!
//! The layers above know documents, sinks, hosts and tools by these traits alone: a meaning that
//! may be told or not, and a count of faults that never falls. [`Docs`] fetches a document, a [`Sink`] takes text
//! ([`write_all`] tries once), a [`Host`] opens readings and drafts ([`ReadPart`], [`WritePart`]), publishes, delivers
//! and removes, and a [`Tool`] makes outputs of inputs. The objects in memory ([`MemoryDocs`], [`MemorySink`],
//! [`MemoryHost`]) tell what they hold, and fail at the calls that a [`Failing`] lists: they are for tests and cases.
//! The plain values of `values` are shown here again.
#![tactic(auto)]

mod counts;
mod docs;
mod failing;
mod host;
mod memory_docs;
mod memory_host;
mod memory_parts;
mod memory_sink;
mod operation;
mod parts;
mod place;
mod sink;
mod store;
mod tool;

pub use counts::Counts;
pub use docs::{DocFault, Docs};
pub use failing::Failing;
pub use host::{Host, HostFault};
pub use memory_docs::MemoryDocs;
pub use memory_host::MemoryHost;
pub use memory_parts::{MemoryDraft, MemoryReading};
pub use memory_sink::MemorySink;
pub use operation::{Operation, Operations};
pub use parts::{ReadPart, WritePart};
pub use place::Place;
pub use sink::{Sink, SinkFault, write_all};
pub use store::Store;
pub use tool::{Tool, ToolFault};
pub use values::{
    Blob, Documents, FileId, FileMap, Items, JobId, Memory, PairId, Policy, SelectFault, SiteId,
    SiteMap, TaskId, Text, Word, push_line,
};
