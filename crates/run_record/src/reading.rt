//! How a line is read: leniently, as an entry whose line it may be.

ghost use Rattle.std.specs.Prelude.{◌≡◌, ◌++◌, ◌||◌, codes, OnOk, option_map};
ghost use Rattle.std.specs.Option.{option_copied};
ghost use Rattle.std.specs.Str.{bytes_eq};
ghost use Rattle.run_record.specs.code.Events.{event};
ghost use Rattle.run_record.specs.code.Reading.{cause_of, digest_at, event_with, listed_words, number_at, number_of, oversize, published_words, size_at, sizes_of};
ghost use Rattle.run_record.specs.code.Words.{words_in, words_of};

use crate::entry::{Cause, Entry};
use crate::words::{first_word, skip_words, word};
use hex::FromHex;
use values::{FileId, JobId, Memory, TaskId};

#[tactic(auto, using(crate::proofs::NumberLemmas::parses))]
fn number(line: &str, place: usize) -> Option<u32>
    ensures { result ≡ number_at (words_of line.now) place }
{
    word(line, place).parse::<u32>().ok()
}

#[tactic(auto, using(crate::proofs::NumberLemmas::parses))]
fn size_of(word: &str) -> Option<u64>
    ensures { result ≡ number_of 64 word.now }
{
    word.parse::<u64>().ok()
}

fn size(line: &str, place: usize) -> Option<u64>
    ensures { result ≡ size_at (words_of line.now) place }
{
    size_of(word(line, place))
}

#[tactic(auto, unfolding(crate::specs::code::Reading::digest_at))]
fn digest(line: &str, place: usize) -> Option<[u8; 32]>
    ensures { result ≡ digest_at (words_of line.now) place }
{
    <[u8; 32] as FromHex>::from_hex(word(line, place)).ok()
}

/// Whether sizes of published outputs may follow a cause of this name.
fn is_publishing(cause: &str) -> bool
    ensures { result ≡ (bytes_eq cause.now (codes "hostfailed") || bytes_eq cause.now (codes "memory")) }
{
    cause == "hostfailed" || cause == "memory"
}

#[tactic(auto, using(crate::proofs::WordsLemmas::no_words_left))]
fn published_text(line: &str) -> Option<&str>
    ensures { words_in (option_copied result) ≡ published_words (words_of line.now) }
{
    if is_publishing(word(line, 3)) {
        skip_words(line, 4)
    } else {
        None
    }
}

/// The part of a line that is its list of sizes.
fn sizes_text(line: &str) -> Option<&str>
    ensures { words_in (option_copied result) ≡ listed_words (words_of line.now) }
{
    if word(line, 0) == "end" {
        skip_words(line, 3)
    } else {
        published_text(line)
    }
}

/// Adds the numbers among the words of a text.
fn push_sizes(text: Option<&str>, sizes: &mut Vec<u64>) -> Result<(), Memory>
    ensures { OnOk result (sizes.new.items ≡ sizes.old.items
        ++ sizes_of (words_in (option_copied text.entry))) }
{
    let mut rest = text;
    while let Some(text) = rest {
        let (word, more) = first_word(text);
        if let Some(size) = size_of(word) {
            sizes.push(size)?;
        }
        rest = more;
    }
    Ok(())
}

/// The sizes that a line lists.
pub fn read_sizes(line: &str, sizes: &mut Vec<u64>) -> Result<(), Memory>
    ensures { OnOk result (sizes.new.items ≡ sizes_of (listed_words (words_of line.now))) }
{
    sizes.clear();
    push_sizes(sizes_text(line), sizes)
}

fn oversize(line: &str) -> Option<Cause>
    ensures { result ≡ oversize (words_of line.now) }
{
    let job = number(line, 4)?;
    let file = number(line, 5)?;
    let length = size(line, 6)?;
    Some(Cause::Oversize(JobId(job), FileId(file), length))
}

#[tactic(auto, unfolding(crate::specs::code::Reading::cause_of))]
fn cause(line: &str) -> Option<Cause>
    ensures { result ≡ cause_of (words_of line.now) }
{
    match word(line, 3) {
        "absent" => Some(Cause::Absent),
        "toolong" => Some(Cause::TooLong(size(line, 4)?)),
        "checksum" => Some(Cause::Checksum(digest(line, 4)?)),
        "oversize" => oversize(line),
        "declined" => Some(Cause::Declined(JobId(number(line, 4)?))),
        "toolfailed" => Some(Cause::ToolFailed(JobId(number(line, 4)?))),
        "hostfailed" => Some(Cause::HostFailed),
        "memory" => Some(Cause::Memory),
        _ => None,
    }
}

/// The entry that a line may be, with sizes that were read from it.
#[tactic(auto, unfolding(crate::specs::code::Reading::event_with))]
pub fn entry<'a>(line: &str, sizes: &'a [u64]) -> Option<Entry<'a>>
    ensures { option_map event result ≡ event_with sizes.now (words_of line.now) }
{
    let worker = number(line, 1)?;
    let task = TaskId(number(line, 2)?);
    match word(line, 0) {
        "grant" => Some(Entry::Grant { worker, task }),
        "arrive" => Some(Entry::Arrive {
            worker,
            task,
            size: size(line, 3)?,
        }),
        "end" => Some(Entry::End {
            worker,
            task,
            sizes,
        }),
        "clean" => Some(Entry::Clean { worker, task }),
        "fail" => Some(Entry::Fail {
            worker,
            task,
            cause: cause(line)?,
            published: sizes,
        }),
        "again" => Some(Entry::Again {
            worker,
            task,
            cause: cause(line)?,
            published: sizes,
        }),
        "regrant" => Some(Entry::Regrant { worker, task }),
        _ => None,
    }
}
