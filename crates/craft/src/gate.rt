//! Where a worker waits outside the lock.

ghost use Rattle.std.specs.Prelude.{◌≡◌, ◌++◌, ◌∷◌, [], ℕ, List};
ghost use Rattle.run_record.specs.Events.{Event};

use crate::entry_notes::EntryNotes;
use crate::notes::Notes;
use outside::TaskId;
use run_record::Record;

/// Two calls that a worker makes outside the lock, and one that it makes in its turn. All of them return.
pub trait Gate: Drop {
    ghost use Rattle.craft.specs.Placed.{last_placed};

    /// The tasks for which `before` was called, in order.
    ghost asked: { Self → List ℕ };

    /// The entries that were told, in order, each with its place in the record.
    ghost told: { Self → List (ℕ × Event) };

    /// Before the bytes of a task are moved, or its jobs computed.
    fn before(&mut self, task: TaskId)
        ensures asked { asked self.new ≡ asked self.old ++ task.0 ∷ [] }
        ensures told { told self.new ≡ told self.old };

    /// After a look at the plan that found nothing to begin.
    fn idle(&mut self)
        ensures asked { asked self.new ≡ asked self.old }
        ensures told { told self.new ≡ told self.old };

    /// In the worker's turn, after it has added an entry: the last one of this record.
    fn entered(&mut self, history: &Record)
        ensures asked { asked self.new ≡ asked self.old }
        ensures told { told self.new ≡ told self.old ++ last_placed history.now.events };
}

/// A gate that is always open.
#[derive(Drop)]
pub struct OpenGate {
    notes: Notes,
    entries: EntryNotes,
}

impl OpenGate {
    pub fn new() -> OpenGate
        ensures asked { ⟦<OpenGate as Gate>⟧.asked result ≡ [] }
        ensures told { ⟦<OpenGate as Gate>⟧.told result ≡ [] }
    {
        OpenGate {
            notes: Notes::new(),
            entries: EntryNotes::new(),
        }
    }
}

impl Gate for OpenGate {
    ghost use Rattle.craft.specs.EntryNotes.{entries_noted};
    ghost use Rattle.craft.specs.Notes.{noted};

    ghost asked = { λ g. noted g.notes };

    ghost told = { λ g. entries_noted g.entries };

    fn before(&mut self, task: TaskId) {
        self.notes.add(task);
    }

    fn idle(&mut self) {}

    fn entered(&mut self, history: &Record) {
        self.entries.add(history);
    }
}
