//! A gate that keeps the record of a run.

ghost use Rattle.std.specs.Prelude.{◌≡◌, []};

use crate::kept_record::{EntryWriter, KeptRecord};
use craft::{EntryNotes, Gate, Notes};
use outside::TaskId;
use run_record::Record;
use std::alloc::Global;
use std::rt::Files;
use std::sync::Arc;

/// A gate that is always open, and writes each entry that it is told into the file that all of a call's gates share. Of that
/// file no clause is told.
#[derive(Drop)]
pub struct RecordKeeper<R: Files> {
    alloc: Global,
    shared: Arc<KeptRecord<R>>,
    writer: EntryWriter<R>,
    notes: Notes,
    entries: EntryNotes,
}

impl<R: Files + Drop> RecordKeeper<R> {
    /// A gate whose entries go to the file of `shared`.
    pub fn new(alloc: Global, shared: Arc<KeptRecord<R>>) -> RecordKeeper<R>
        ensures asked { ⟦<RecordKeeper<R> as Gate>⟧.asked result ≡ [] }
        ensures told { ⟦<RecordKeeper<R> as Gate>⟧.told result ≡ [] }
    {
        RecordKeeper {
            alloc,
            shared,
            writer: EntryWriter::new(alloc),
            notes: Notes::new(),
            entries: EntryNotes::new(),
        }
    }
}

impl<R: Files + Drop> Gate for RecordKeeper<R> {
    ghost use Rattle.craft.specs.EntryNotes.{entries_noted};
    ghost use Rattle.craft.specs.Notes.{noted};

    ghost asked = { λ g. noted g.notes };

    ghost told = { λ g. entries_noted g.entries };

    fn before(&mut self, task: TaskId) {
        self.notes.add(task);
    }

    fn idle(&mut self) {}

    fn entered(&mut self, history: &Record) {
        self.entries.add(history);
        self.shared.keep(self.alloc, &mut self.writer, history);
    }
}
