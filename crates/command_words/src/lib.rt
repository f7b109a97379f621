//! The words of a command line, and which commands they are.
//!
//! `specs/Words.antt` says which words are a command. [`quick_command`] gives one that starts no
//! thread, [`threaded_command`] one that may; [`threaded`] says which of the two to ask.
//! [`user_words`] takes the words from a program's arguments.
//!
//! `clap` reads the words (`line.rt`), after the rule on `-`. What it gives is compared with what
//! the definition says of the words, and a command is made of it where they agree. Where they
//! don't, words that are no command are none, and a command is answered by want of memory.
#![tactic(auto)]

mod commands;
mod line;
mod numbers;
mod said;
mod words;

pub use commands::{Quick, Threaded};
pub use words::{quick_command, threaded, threaded_command, user_words};
