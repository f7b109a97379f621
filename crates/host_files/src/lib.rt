//! Files and streams of the machine that a program runs on.
//!
//! [`FolderDocs`] meets `outside::Docs` over files, [`FolderHost`] meets `outside::Host` over files, and
//! [`StreamSink`] meets `outside::Sink` over a writer. Nothing is assumed of real files: what they hold isn't
//! told, and what a stream holds is told only where the writer tells it. A reading within a limit is defined in
//! `specs/Reading.antt`, the path of a name ([`path_in`]) in `specs/FileName.antt`, that of a pfn in `specs/Pfn.antt`.
//!
//! A host's files are read and written in pieces by a [`FolderReading`] and a [`FolderDraft`].
//!
//! [`RecordKeeper`] meets `craft::Gate`: it writes each entry that it is told into a file of the working folder, which
//! [`KeptRecord`] stands for, so that the record of a run that is killed isn't lost.
//!
//! A [`Claim`] keeps an open folder for one process until it is closed. A law says that names written as paths stay
//! apart ([`escaped_names_stay_apart`]).
//!
//! [`Progress`] is a line on a terminal: [`ShownTool`] counts a tool's runs in it, and [`WipingSink`] takes it away
//! before a text is written.
#![tactic(auto)]

mod claim;
mod file_name;
mod folder_docs;
mod folder_draft;
mod folder_host;
mod folder_reading;
mod kept_record;
mod law;
mod opening;
mod pfn;
mod progress;
mod reading;
mod record_keeper;
mod shown_tool;
mod standing;
mod stream_sink;
mod target;
mod wiping_sink;
mod writing;

pub use claim::Claim;
pub use file_name::path_in;
pub use folder_docs::FolderDocs;
pub use folder_draft::FolderDraft;
pub use folder_host::FolderHost;
pub use folder_reading::FolderReading;
pub use kept_record::KeptRecord;
pub use law::escaped_names_stay_apart;
pub use progress::Progress;
pub use record_keeper::RecordKeeper;
pub use shown_tool::ShownTool;
pub use stream_sink::StreamSink;
pub use wiping_sink::WipingSink;
