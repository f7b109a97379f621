//! The lines of a text, and which of them are those of entries.

ghost use Rattle.std.specs.Prelude.{◌≡◌, ◌++◌, IfOk, IfSome, IfNone, IsTrue, codes, drop, false};
ghost use Rattle.run_record.specs.Events.{Event};
ghost use Rattle.run_record.specs.code.Events.{event};
ghost use Rattle.run_record.specs.code.Lines.{first_line, line_length};
ghost use Rattle.run_record.specs.code.Parser.{AddsEntry, IsLineOf, IsNoEntry};
ghost use Rattle.run_record.specs.code.RecordText.{IsEntry};
ghost use Rattle.run_record.specs.RecordText.{entry_line};

use crate::entry::Entry;
use crate::history::Record;
use crate::printer::push_entry;
use crate::reading;
use std::alloc::Global;
use std::str;
use values::Memory;

/// Memory that is used again for each line.
#[derive(Drop)]
pub struct Scratch {
    pub sizes: Vec<u64>,
    pub printed: Vec<u8>,
}

fn line_length(text: &[u8]) -> usize
    ensures { result ≡ line_length text.now }
{
    for (k, byte) in text.iter().enumerate() {
        if *byte == b'\n' {
            return k + 1;
        }
    }
    text.len()
}

/// The first line, with its line feed, and what follows.
#[tactic(auto, using(crate::proofs::LineLemmas::line_within))]
pub fn cut_line(text: &[u8]) -> (&[u8], &[u8])
    ensures line { result.0.now ≡ first_line text.now }
    ensures rest { result.1.now ≡ drop (line_length text.now) text.now }
{
    text.split_at(line_length(text))
}

/// The text of a line without its line feed.
fn line_text(line: &[u8]) -> Option<&str>
    ensures text { IfSome result (λ text. text.now ++ codes "\n" ≡ line.now) }
    ensures none { IfNone result ((e : Event) → IsEntry e → entry_line e ≡ line.now → ⊥) }
{
    let Some(front) = line.strip_suffix(b"\n") else {
        return None;
    };
    match str::from_utf8(front) {
        Ok(text) => Some(text),
        Err(_) => None,
    }
}

/// Whether a record of the version may have an entry, and this is its line.
fn is_line_of(
    alloc: Global,
    entry: &Entry<'_>,
    second: bool,
    line: &[u8],
    printed: &mut Vec<u8>,
) -> Result<bool, Memory>
    ensures found { IfOk result (λ found. IsTrue found → IsLineOf second (event entry.now) line.now) }
    ensures none { IfOk result (λ found. found ≡ false → IsLineOf second (event entry.now) line.now → ⊥) }
{
    if !entry.is_proper() || (entry.is_second() && !second) {
        return Ok(false);
    }
    printed.clear();
    push_entry(alloc, printed, entry)?;
    Ok(printed.as_slice() == line)
}

/// Adds the entry whose line this is, and says whether there is one.
pub fn read_line(
    alloc: Global,
    line: &[u8],
    second: bool,
    scratch: &mut Scratch,
    history: &mut Record,
) -> Result<bool, Memory>
    ensures added { IfOk result (λ found. IsTrue found
        → AddsEntry second line.now history.old.events history.new.events) }
    ensures none { IfOk result (λ found. found ≡ false → IsNoEntry second line.now) }
    ensures same { IfOk result (λ found. found ≡ false → history.new.events ≡ history.old.events) }
{
    let Some(text) = line_text(line) else {
        return Ok(false);
    };
    reading::read_sizes(text, &mut scratch.sizes)?;
    let Some(entry) = reading::entry(text, &scratch.sizes) else {
        return Ok(false);
    };
    if !is_line_of(alloc, &entry, second, line, &mut scratch.printed)? {
        return Ok(false);
    }
    history.reserve(entry.sizes().len())?;
    history.push(&entry);
    Ok(true)
}
