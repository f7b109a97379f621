//! How a run that stopped is gone on with, from its record.
//!
//! [`replay`] makes a book whose record is the given one without its Fails, and tells which tasks were lost: those that
//! are open in it. What that is, and when a record is refused, is said in `specs/Replaying.antt` and `specs/Lost.antt`.
//! [`redo`] does these tasks, each as its own worker (`specs/Redoing.antt`). [`resume_plan`] is the whole of it: it
//! replays the record, opens a yard with it, does the lost tasks and then what is left, as one worker, until all is
//! done or something failed (`specs/Resuming.antt`).
#![tactic(auto)]

mod law;
mod lost;
mod redoing;
mod replaying;
mod resuming;
mod working;

pub use law::{records_without_fails_are_legal, resumes_finish};
pub use lost::Lost;
pub use redoing::redo;
pub use replaying::{ReplayFault, Replayed, replay};
pub use resuming::{ResumeFault, Resumed, resume_plan};
