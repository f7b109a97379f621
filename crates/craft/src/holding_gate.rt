//! A gate that holds the first task back.

ghost use Rattle.std.specs.Prelude.{◌≡◌, []};

use crate::entry_notes::EntryNotes;
use crate::gate::Gate;
use crate::holding::Hold;
use crate::notes::Notes;
use outside::TaskId;
use run_record::Record;
use std::sync::Arc;
use std::sync::atomic::Ordering;

/// A gate at which the first task, of all gates that share the hold, waits until another one came. With a limit of 0 it
/// is always open.
#[derive(Drop)]
pub struct HoldingGate {
    hold: Arc<Hold>,
    limit: u64,
    notes: Notes,
    entries: EntryNotes,
}

impl HoldingGate {
    /// `limit` is how often the held task looks for another one before it goes on.
    pub fn new(hold: Arc<Hold>, limit: u64) -> HoldingGate
        ensures asked { ⟦<HoldingGate as Gate>⟧.asked result ≡ [] }
        ensures told { ⟦<HoldingGate as Gate>⟧.told result ≡ [] }
    {
        HoldingGate {
            hold,
            limit,
            notes: Notes::new(),
            entries: EntryNotes::new(),
        }
    }

    fn pass(&self) {
        let started = self.hold.started.fetch_add(1, Ordering::SeqCst);
        if self.limit == 0 {
            return;
        }
        if started == 0 {
            self.hold.wait(self.limit);
        } else {
            self.hold.answered.fetch_add(1, Ordering::SeqCst);
        }
    }
}

impl Gate for HoldingGate {
    ghost use Rattle.craft.specs.EntryNotes.{entries_noted};
    ghost use Rattle.craft.specs.Notes.{noted};

    ghost asked = { λ g. noted g.notes };

    ghost told = { λ g. entries_noted g.entries };

    fn before(&mut self, task: TaskId) {
        self.notes.add(task);
        self.pass();
    }

    fn idle(&mut self) {}

    fn entered(&mut self, history: &Record) {
        self.entries.add(history);
    }
}
