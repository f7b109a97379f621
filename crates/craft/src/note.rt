//! A note of one more task.

use outside::TaskId;
use std::snapshot::Snapshot;

/// The last of some notes, and those before it.
#[derive(Drop)]
pub enum Note {
    First,
    After(Snapshot<Note>, TaskId),
}
