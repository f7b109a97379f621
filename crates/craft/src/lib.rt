//! A worker's tool and gate, and tools over another one for tests.
//!
//! A [`Gate`] is called outside the lock, before a task's bytes are moved and where a worker has nothing to do, and
//! told in the worker's turn each entry that it has added; [`OpenGate`] lets everything pass, and [`HoldingGate`] holds
//! the first task until another one came. Contracts see the tasks for which a gate was called and the entries that it
//! was told, in order; [`Notes`] and [`EntryNotes`] are such lists, which have no bytes in a program. [`Faulty`] fails
//! at stated runs, and [`Holding`] holds the first run until another one was answered; it notes runs that came before
//! as many tasks had come to the gates.
#![tactic(auto)]

mod crew;
mod entry_note;
mod entry_notes;
mod faulty;
mod gate;
mod holding;
mod holding_gate;
mod note;
mod notes;

pub use crew::Crew;
pub use entry_note::EntryNote;
pub use entry_notes::EntryNotes;
pub use faulty::Faulty;
pub use gate::{Gate, OpenGate};
pub use holding::{Hold, Holding};
pub use holding_gate::HoldingGate;
pub use note::Note;
pub use notes::Notes;
