//! A note of one more entry.

use run_record::Record;
use std::snapshot::Snapshot;

/// The last of some notes of entries, and those before it. An entry is the last one of the record that was shown.
#[derive(Drop)]
pub enum EntryNote {
    First,
    After(Snapshot<EntryNote>, Snapshot<Record>),
}
