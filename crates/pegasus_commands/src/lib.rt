//! The commands of `pegasus`, over documents, a host and a crew: what each does once the words have named it.
//!
//! [`work`] does a command that starts no thread, [`work_in_threads`] one that may. A command is a file of `commands/`,
//! one of `specs/code/Commands/` and a row of the tables of words and of commands; `specs/code/CommandSpec.antt` says
//! what each of them states, and `specs/code/Commands.antt` is the table. What several share stands beside them: the
//! documents, their survey, the joint of an ensemble, a plan that can be run, and why a command isn't done.
#![tactic(auto)]

mod commands;
mod course;
mod ensembles;
mod fault;
mod judging;
mod kept_tools;
mod ready_plan;
mod recorded;
mod survey;

pub use commands::{Told, Worked, has_line, work, work_in_threads};
pub use course::Requested;
pub use fault::CallFault;
pub use recorded::Recorded;
