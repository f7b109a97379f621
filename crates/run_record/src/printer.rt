//! The text of a record.

ghost use Rattle.std.specs.Prelude.{◌≡◌, ◌++◌, ◌∷◌, [], IfOk, OnOk, map};
ghost use Rattle.std.specs.List.{concat, list_any};
ghost use Rattle.run_record.specs.code.Events.{event};
ghost use Rattle.run_record.specs.Events.{is_second};
ghost use Rattle.run_record.specs.RecordText.{Digest, Number, Plain, Size, cause_words, entry_line, entry_words, joined_words, record_text, spaced};

use crate::entry::{Cause, Entry};
use crate::history::Record;
use hex::encode;
use std::alloc::Global;
use values::{Blob, Memory, TaskId};

fn push_plain(text: &mut Vec<u8>, word: &str) -> Result<(), Memory>
    ensures { OnOk result (text.new.items ≡ text.old.items ++ spaced (Plain word.now ∷ [])) }
{
    text.extend_from_slice(b" ")?;
    text.extend_from_slice(word.as_bytes())?;
    Ok(())
}

fn push_number(alloc: Global, text: &mut Vec<u8>, number: u32) -> Result<(), Memory>
    ensures { OnOk result (text.new.items ≡ text.old.items ++ spaced (Number number ∷ [])) }
{
    push_size(alloc, text, u64::from(number))
}

fn push_size(alloc: Global, text: &mut Vec<u8>, size: u64) -> Result<(), Memory>
    ensures { OnOk result (text.new.items ≡ text.old.items ++ spaced (Size size ∷ [])) }
{
    let digits = format!(in alloc; " {size}")?;
    text.extend_from_slice(digits.as_bytes())?;
    Ok(())
}

fn push_sizes(alloc: Global, text: &mut Vec<u8>, sizes: &[u64]) -> Result<(), Memory>
    ensures { OnOk result (text.new.items ≡ text.old.items ++ spaced (map Size sizes.now)) }
{
    for size in sizes {
        push_size(alloc, text, *size)?;
    }
    Ok(())
}

fn push_digest(alloc: Global, text: &mut Vec<u8>, digest: &[u8; 32]) -> Result<(), Memory>
    ensures { OnOk result (text.new.items ≡ text.old.items ++ spaced (Digest digest.now ∷ [])) }
{
    let digits = encode(alloc, digest)?;
    push_plain(text, digits.as_str())
}

fn push_cause(alloc: Global, text: &mut Vec<u8>, cause: &Cause) -> Result<(), Memory>
    ensures { OnOk result (text.new.items ≡ text.old.items ++ spaced (cause_words cause.now)) }
{
    match cause {
        Cause::Absent => push_plain(text, "absent"),
        Cause::TooLong(length) => {
            push_plain(text, "toolong")?;
            push_size(alloc, text, *length)
        }
        Cause::Checksum(digest) => {
            push_plain(text, "checksum")?;
            push_digest(alloc, text, digest)
        }
        Cause::Oversize(job, file, size) => {
            push_plain(text, "oversize")?;
            push_number(alloc, text, job.0)?;
            push_number(alloc, text, file.0)?;
            push_size(alloc, text, *size)
        }
        Cause::Declined(job) => {
            push_plain(text, "declined")?;
            push_number(alloc, text, job.0)
        }
        Cause::ToolFailed(job) => {
            push_plain(text, "toolfailed")?;
            push_number(alloc, text, job.0)
        }
        Cause::HostFailed => push_plain(text, "hostfailed"),
        Cause::Memory => push_plain(text, "memory"),
    }
}

/// The first words of an entry's line: its kind, the worker and the task.
fn push_head(
    alloc: Global,
    text: &mut Vec<u8>,
    kind: &str,
    worker: u32,
    task: TaskId,
) -> Result<(), Memory>
    ensures { OnOk result (text.new.items ≡ text.old.items ++ kind.now
        ++ spaced (Number worker ∷ Number task.0 ∷ [])) }
{
    text.extend_from_slice(kind.as_bytes())?;
    push_number(alloc, text, worker)?;
    push_number(alloc, text, task.0)
}

/// The words of a failure: its cause and the published sizes.
#[tactic(auto, using(crate::proofs::RecordTextLemmas::spaced_append))]
fn push_failure(
    alloc: Global,
    text: &mut Vec<u8>,
    cause: &Cause,
    published: &[u64],
) -> Result<(), Memory>
    ensures { OnOk result (text.new.items ≡ text.old.items
        ++ spaced (cause_words cause.now ++ map Size published.now)) }
{
    push_cause(alloc, text, cause)?;
    push_sizes(alloc, text, published)
}

fn push_words(alloc: Global, text: &mut Vec<u8>, entry: &Entry<'_>) -> Result<(), Memory>
    ensures { OnOk result (text.new.items ≡ text.old.items ++ joined_words (entry_words (event entry.now))) }
{
    match entry {
        Entry::Grant { worker, task } => push_head(alloc, text, "grant", *worker, *task),
        Entry::Arrive { worker, task, size } => {
            push_head(alloc, text, "arrive", *worker, *task)?;
            push_size(alloc, text, *size)
        }
        Entry::End {
            worker,
            task,
            sizes,
        } => {
            push_head(alloc, text, "end", *worker, *task)?;
            push_sizes(alloc, text, sizes)
        }
        Entry::Clean { worker, task } => push_head(alloc, text, "clean", *worker, *task),
        Entry::Fail {
            worker,
            task,
            cause,
            published,
        } => {
            push_head(alloc, text, "fail", *worker, *task)?;
            push_failure(alloc, text, cause, published)
        }
        Entry::Again {
            worker,
            task,
            cause,
            published,
        } => {
            push_head(alloc, text, "again", *worker, *task)?;
            push_failure(alloc, text, cause, published)
        }
        Entry::Regrant { worker, task } => push_head(alloc, text, "regrant", *worker, *task),
    }
}

/// Adds the line of an entry.
#[tactic(auto, unfolding(crate::specs::RecordText::entry_line))]
pub fn push_entry(alloc: Global, text: &mut Vec<u8>, entry: &Entry<'_>) -> Result<(), Memory>
    ensures { OnOk result (text.new.items ≡ text.old.items ++ entry_line (event entry.now)) }
{
    push_words(alloc, text, entry)?;
    text.extend_from_slice(b"\n")?;
    Ok(())
}

fn push_entries(alloc: Global, text: &mut Vec<u8>, history: &Record) -> Result<(), Memory>
    ensures { OnOk result (text.new.items ≡ text.old.items ++ concat (map entry_line history.now.events)) }
{
    for k in 0..history.len() {
        push_entry(alloc, text, &history.entry(k))?;
    }
    Ok(())
}

/// Whether an entry of a retry or of a fresh order stands.
pub fn is_version_two(history: &Record) -> bool
    ensures { result ≡ list_any is_second history.now.events }
{
    for k in 0..history.len() {
        if history.entry(k).is_second() {
            return true;
        }
    }
    false
}

/// The text of a record.
#[tactic(auto, using(crate::proofs::RecordTextLemmas::lines_closed), unfolding(crate::specs::RecordText::record_lines))]
pub fn print(alloc: Global, history: &Record) -> Result<Blob, Memory>
    ensures { IfOk result (λ b. b ≡ record_text history.now.events) }
{
    let mut text = Vec::new(alloc);
    if is_version_two(history) {
        text.extend_from_slice(b"record 2\n")?;
    } else {
        text.extend_from_slice(b"record 1\n")?;
    }
    push_entries(alloc, &mut text, history)?;
    text.extend_from_slice(b"closed\n")?;
    Ok(Blob::new(text))
}
