//! The record of a run, tied to the host that holds its files.
//!
//! To the layer above a [`Yard`] is its record and its host's marked store: where the host tells, its store is the
//! marked one with the changes that the record's entries name, one after the other (`specs/Changes.antt`), and the
//! record is Truthful over it (`specs/code/Truthful.antt`). That is one equation (`specs/code/Kept.antt`); what follows
//! from it of each file, of the trace and of the replicas is [`Yard::agrees`], by `specs/Law.antt`. How often the
//! host's counts rose is in `specs/code/Failures.antt`. The plan and the book are those of `plan_core` and
//! `lease_book`; what a task carries is plan_core's. What a call adds to the record is in `specs/code/Yard.antt`, what
//! moves bytes in `specs/code/Moving.antt` and `Storing.antt`, in the host's words alone. What was delivered, with
//! lengths and digests, is [`Yard::delivered`] (`specs/Delivered.antt`). As the value of a lock a yard has a charter,
//! which never changes, and its record as the journal (`chronicle.rt`).
#![tactic(auto)]

mod asking;
mod chronicle;
mod completing;
mod delivered;
mod ending;
mod faults;
mod law;
mod leased;
mod leasing;
mod leaving;
mod lending;
mod loans;
mod moving;
mod names;
mod opening;
mod reopening;
mod returning;
mod yard;

pub use chronicle::{Charter, JournalEntry};
pub use completing::complete_records_deliver;
pub use delivered::Delivered;
pub use faults::{fails_show_in_the_state, nothing_else_fails};
pub use law::{kept_stores_show_records, plan_laws};
pub use leased::Leased;
pub use leaving::what_is_left_is_held;
pub use lending::Loan;
pub use opening::{OpenFault, OpenRefused, opening_fault};
pub use yard::Yard;
