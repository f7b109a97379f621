//! A yard as the value of a lock: what never changes of it, and its record as its journal.

ghost use Rattle.std.specs.Prelude.{is_some, take};
ghost use Rattle.run_record.specs.Events.{Event, Grant};
ghost use Rattle.lease_rules.specs.Owning.{worker};

use crate::yard::Yard;
use outside::{Host, Items, Store, TaskId, Tool};
use ruled_lock::Chronicle;
use std::marker::Model;
use storage_simulation::Ordered;

/// What never changes of a yard: its plan with the order, the entries with which it was opened, what its host told then,
/// whether that host tells, and the host's counts at the opening. It is for contracts; no value of it is made.
pub struct Charter {
    pub ordered: Ordered,
    pub opened: Items<JournalEntry>,
    pub marked: Store,
    pub tells: bool,
    pub faults: u64,
    pub misses: u64,
}

/// An entry of a yard's record, as contracts see it. No value of it is made.
pub struct JournalEntry {
    worker: u32,
    task: TaskId,
}

impl Model for JournalEntry {
    ghost Value = { Event };

    ghost view = { λ e. Grant e.worker e.task.0 };
}

impl<H: Host, T: Tool> Chronicle for Yard<H, T> {
    type Charter = Charter;

    type Item = JournalEntry;

    ghost charter = { λ y. record {
      ordered = y.ordered.value;
      opened = take y.opened y.book.history.events;
      marked = H.marked y.host;
      tells = is_some (H.told y.host);
      faults = y.faults;
      misses = y.misses;
    } };

    ghost journal = { λ y. y.book.history.events };

    ghost author = { λ e. worker e };

    fn entries(&self) -> u64 {
        self.book.record().len() as u64
    }
}
