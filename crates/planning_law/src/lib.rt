//! The documents decide the plan and the order, so what a run has printed is complete for them.
//!
//! There is no code here but laws, on the definitions of `planner` and `pegasus_commands`. By
//! [`planning_is_a_function`] two plans of the same documents are one, and so are their orders; by
//! [`printed_runs_are_complete`] whatever plan and order of the same documents `audit` judges by, it finds that what a run
//! has printed and says `done` is complete. Each step of planning has a file of `proofs/`. By
//! [`recorded_sizes_are_carried`] what is asked of a record that is gone on with needs no word on sizes.
#![tactic(auto)]

mod law;

pub use law::{
    planning_is_a_function, printed_runs_are_complete, recorded_sizes_are_carried,
    truthful_records_are_resumed,
};
