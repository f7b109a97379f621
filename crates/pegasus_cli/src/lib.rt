//! What the command line `pegasus` does, over documents, a sink, a host and a crew.
//!
//! `pegasus` of `threaded_call.rt` is the call that the program makes; its clauses say when each outcome comes, what
//! the host holds then and what was written. [`quick`] is the same for words that start no thread, and waits for nobody.
//! What a command does stands in the crate `pegasus_commands`; here are the call that does it, its outcome, the line of
//! that and its status. The definitions stand in `specs/`, over those of the crates below; begin with
//! `specs/Headline.antt`, which says what a run by several workers comes to, and `specs/code/Call.antt`.
#![tactic(auto)]

mod call;
mod ensemble_line;
mod law;
mod outcome;
mod threaded_call;

pub use call::quick;
pub use command_words::{threaded, user_words};
pub use law::{told_documents_decide, usage_is_no_command};
pub use outcome::Outcome;
pub use rehearsal::Rehearsal;
pub use threaded_call::pegasus;
