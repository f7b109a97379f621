//! What clap reads in the words of a call.

use crate::said::Said;
use clap::{Arg, ArgMatches, Command};
use std::alloc::{AllocError, Global};

/// Up to three words and the option for workers.
fn command_line<'a>(alloc: Global) -> Result<Command<'a>, AllocError> {
    Command::new(alloc, "pegasus")
        .no_binary_name(true)
        .disable_help_flag(true)
        .arg(Arg::new(alloc, "first"))?
        .arg(Arg::new(alloc, "second"))?
        .arg(Arg::new(alloc, "third"))?
        .arg(Arg::new(alloc, "workers").long("workers"))
}

/// What the words and the option of a command line say together.
fn candidate<'a>(matches: &ArgMatches<'a>) -> Option<Said<'a>> {
    let word = matches.get_str("first")?;
    let a = matches.get_str("second")?;
    match (matches.get_str("third"), matches.get_str("workers")) {
        (None, None) => Some(Said::One(word, a)),
        (Some(b), None) => Some(Said::Two(word, a, b)),
        (None, Some(digits)) => Some(Said::WithWorkers(word, a, digits.as_bytes())),
        (Some(_), Some(_)) => None,
    }
}

/// What clap reads in words; nothing where it refuses them, or where memory runs out.
pub(crate) fn read_by_clap(alloc: Global, words: &[String]) -> Option<Said<'_>> {
    match command_line(alloc) {
        Ok(line) => match line.try_get_matches_from(words) {
            Ok(matches) => candidate(&matches),
            Err(_) => None,
        },
        Err(_) => None,
    }
}
