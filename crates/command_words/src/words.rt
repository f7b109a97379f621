//! The command that words are.

ghost use Rattle.std.specs.Prelude.{◌≡◌, Some, true, IfErr, IfOk, IfSome, IsErr, is_some, map as list_map, option_map, string_bytes};
ghost use Rattle.std.specs.List.{list_all, list_any};
ghost use Rattle.command_words.specs.code.Words.{AreFew, HasImages, HasImagesBy, IsForMemory, is_threaded, keeps_the_rule as keeps, quick_command as quick_in, quick_of, said_of, threaded_members, threaded_of, words_given};
ghost use Rattle.command_words.specs.Words.{begins_with, said_in, threaded_command as threaded_in, workers_option};

use crate::commands::{Quick, Threaded, find_quick, find_threaded};
use crate::line::read_by_clap;
use crate::said::{Said, is_said, keeps_the_rule, read_words};
use std::alloc::Global;
use std::env::Args;
use std::io;
use values::Memory;

/// No word is empty, and none but the option for workers begins with a dash.
fn keep_the_rule(words: &[String]) -> bool
    ensures { result ≡ list_all keeps (list_map string_bytes words.now) }
{
    for word in words {
        if !keeps_the_rule(word.as_str()) {
            return false;
        }
    }
    true
}

/// What words say as clap reads them, where that is what they say by the definition.
fn read(alloc: Global, words: &[String]) -> Option<Said<'_>>
    ensures { IfSome result (λ s. said_in (list_map string_bytes words.now) ≡ Some (said_of s)) }
{
    if !keep_the_rule(words) {
        return None;
    }
    match read_by_clap(alloc, words) {
        Some(said) if is_said(words, said) => Some(said),
        _ => None,
    }
}

/// Words that clap gives nothing for are no command, or memory ran out.
fn unread_quick(words: &[String]) -> Result<Option<Quick<'_>>, Memory>
    ensures is { IfOk result (λ o. option_map quick_of o ≡ quick_in (list_map string_bytes words.now)) }
    ensures memory { IfErr result (λ e. is_some (quick_in (list_map string_bytes words.now)) ≡ true) }
    ensures images { IfOk result (λ o. IfSome o (λ c. HasImages (quick_of c))) }
{
    match read_words(words) {
        None => Ok(None),
        Some(said) => match find_quick(said) {
            None => Ok(None),
            Some(_) => Err(Memory),
        },
    }
}

/// Words that clap gives nothing for are no command, or memory ran out.
fn unread_threaded(words: &[String]) -> Result<Option<Threaded<'_>>, Memory>
    ensures is { IfOk result (λ o. option_map threaded_of o ≡ threaded_in (list_map string_bytes words.now)) }
    ensures memory { IfErr result (λ e. is_some (threaded_in (list_map string_bytes words.now)) ≡ true) }
    ensures few { IfOk result (λ o. IfSome o (λ c. AreFew (threaded_members (threaded_of c)))) }
    ensures images { IfOk result (λ o. IfSome o (λ c. HasImagesBy (threaded_of c))) }
{
    match read_words(words) {
        None => Ok(None),
        Some(said) => match find_threaded(said) {
            None => Ok(None),
            Some(_) => Err(Memory),
        },
    }
}

/// The command of words that start no thread.
pub fn quick_command(alloc: Global, words: &[String]) -> Result<Option<Quick<'_>>, Memory>
    ensures is { IfOk result (λ o. option_map quick_of o ≡ quick_in (list_map string_bytes words.now)) }
    ensures memory { IfErr result (λ e. is_some (quick_in (list_map string_bytes words.now)) ≡ true) }
    ensures images { IfOk result (λ o. IfSome o (λ c. HasImages (quick_of c))) }
{
    match read(alloc, words) {
        Some(said) => Ok(find_quick(said)),
        None => unread_quick(words),
    }
}

/// The command of words that may start threads.
pub fn threaded_command(alloc: Global, words: &[String]) -> Result<Option<Threaded<'_>>, Memory>
    ensures is { IfOk result (λ o. option_map threaded_of o ≡ threaded_in (list_map string_bytes words.now)) }
    ensures memory { IfErr result (λ e. is_some (threaded_in (list_map string_bytes words.now)) ≡ true) }
    ensures few { IfOk result (λ o. IfSome o (λ c. AreFew (threaded_members (threaded_of c)))) }
    ensures images { IfOk result (λ o. IfSome o (λ c. HasImagesBy (threaded_of c))) }
{
    match read(alloc, words) {
        Some(said) => Ok(find_threaded(said)),
        None => unread_threaded(words),
    }
}

/// Whether a word begins with `--workers`.
fn has_workers(words: &[String]) -> bool
    ensures { result ≡ list_any (begins_with workers_option) (list_map string_bytes words.now) }
{
    for word in words {
        let rest = word.as_bytes().strip_prefix(b"--workers".as_slice());
        if rest.is_some() {
            return true;
        }
    }
    false
}

/// Whether a call with these words may start threads: a run's, and a rehearsal's or an ensemble's
/// by workers.
pub fn threaded(words: &[String]) -> bool
    ensures { result ≡ is_threaded (list_map string_bytes words.now) }
{
    match words {
        [] => false,
        [word, words @ ..] => {
            let word = word.as_str();
            word == "run" || ((word == "rehearse" || word == "ensemble") && has_workers(words))
        }
    }
}

/// The user's words of the program's arguments. Arguments that are no text are no command, as an
/// empty list is.
pub fn user_words(alloc: Global, args: io::Result<Args>) -> Result<Vec<String>, Memory>
    ensures words { IfOk result (λ words. words.items ≡ words_given args) }
    ensures memory { IsForMemory args → IsErr result }
{
    let mut words = Vec::new(alloc);
    match args {
        Ok(mut args) => {
            let _program = args.next();
            for word in args {
                words.push(word)?;
            }
        }
        Err(e) if e.kind() == io::ErrorKind::OutOfMemory => return Err(Memory),
        Err(_) => {}
    }
    Ok(words)
}
