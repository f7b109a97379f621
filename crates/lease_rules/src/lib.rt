//! Which tasks of a run may begin, said of the list of a run's entries.
//!
//! To the layers above this is what a record of a plan says: a state, a fold over its entries (`specs/State.antt`);
//! Safe and the Choice (`specs/Choice.antt`); what may come next and which records are legal (`specs/Legal.antt`).
//! There is no code here but laws. [`legal_records_are_safe`] is the theorem on them: no bound is passed, and no run
//! gets stuck.
#![tactic(auto)]

mod law;

pub use law::{
    allowed_entries_keep_safe, choice_is_one, entries_are_few, legal_records_are_safe,
    no_clean_begins_afresh, ordered_plans_fit, over_records_end, own_entries_tell_open_tasks,
    plain_policy_tries_once, records_read, storage_laws,
};
