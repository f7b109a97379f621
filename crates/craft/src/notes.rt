//! Notes that take no room.

ghost use Rattle.std.specs.Prelude.{◌≡◌, ◌++◌, ◌∷◌, []};
ghost use Rattle.craft.specs.Notes.{noted};

use crate::note::Note;
use outside::TaskId;
use std::mem;
use std::snapshot::Snapshot;

/// Tasks in the order of their noting. They are for contracts alone, and have no bytes where a program runs.
#[derive(Drop)]
pub struct Notes {
    last: Snapshot<Note>,
}

impl Notes {
    /// No notes yet.
    pub fn new() -> Notes
        ensures { noted result ≡ [] }
    {
        Notes {
            last: Snapshot::of(&Note::First),
        }
    }

    /// One note more.
    pub fn add(&mut self, task: TaskId)
        ensures { noted self.new ≡ noted self.old ++ task.0 ∷ [] }
    {
        let earlier = mem::replace(&mut self.last, Snapshot::of(&Note::First));
        self.last = Snapshot::of(&Note::After(earlier, task));
    }
}
