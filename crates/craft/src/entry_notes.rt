//! Notes of entries that take no room.

ghost use Rattle.std.specs.Prelude.{◌≡◌, ◌++◌, []};
ghost use Rattle.craft.specs.EntryNotes.{entries_noted};
ghost use Rattle.craft.specs.Placed.{last_placed};

use crate::entry_note::EntryNote;
use run_record::Record;
use std::mem;
use std::snapshot::Snapshot;

/// Entries with their places, in the order of their noting. They are for contracts alone, and have no bytes where a program
/// runs.
#[derive(Drop)]
pub struct EntryNotes {
    last: Snapshot<EntryNote>,
}

impl EntryNotes {
    /// No notes yet.
    pub fn new() -> EntryNotes
        ensures { entries_noted result ≡ [] }
    {
        EntryNotes {
            last: Snapshot::of(&EntryNote::First),
        }
    }

    /// A note of the last entry of a record.
    pub fn add(&mut self, history: &Record)
        ensures { entries_noted self.new ≡ entries_noted self.old ++ last_placed history.now.events }
    {
        let earlier = mem::replace(&mut self.last, Snapshot::of(&EntryNote::First));
        self.last = Snapshot::of(&EntryNote::After(earlier, Snapshot::of(history)));
    }
}
