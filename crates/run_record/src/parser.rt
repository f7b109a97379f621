//! The record that a text is.

ghost use Rattle.std.specs.Prelude.{◌≡◌, ◌++◌, Bool, IfErr, IfNone, IfOk, IfSome, IsTrue, List, OnOk, [], map, false, true, ℕ};
ghost use Rattle.std.specs.List.{concat, list_all, list_any};
ghost use Rattle.run_record.specs.Events.{Event, is_second};
ghost use Rattle.run_record.specs.code.Fault.{IsFaultOf, IsReadBack};
ghost use Rattle.run_record.specs.code.Lines.{first_line};
ghost use Rattle.run_record.specs.code.Parser.{IsEndOf, IsNoEntry, IsRead, fits_version};
ghost use Rattle.run_record.specs.code.RecordText.{AreEntries};
ghost use Rattle.run_record.specs.RecordText.{closed_line, entry_line, record_text, version_line};

use crate::fault::RecordFault;
use crate::history::Record;
use crate::lines::{Scratch, cut_line, read_line};
use crate::printer::is_version_two;
use std::alloc::Global;
use values::Memory;

/// Whether a line is that of version 2, if it is a version's.
fn version(line: &[u8]) -> Option<bool>
    ensures some { IfSome result (λ second. version_line second ≡ line.now) }
    ensures none { IfNone result ((second : Bool) → version_line second ≡ line.now → ⊥) }
{
    match line {
        b"record 1\n" => Some(false),
        b"record 2\n" => Some(true),
        _ => None,
    }
}

/// Adds entries as long as lines of them come, and gives what follows.
fn read_entries<'a>(
    alloc: Global,
    text: &'a [u8],
    second: bool,
    history: &mut Record,
) -> Result<&'a [u8], Memory>
    requires { history.old.events ≡ [] }
    ensures lines { IfOk result (λ rest. concat (map entry_line history.new.events) ++ rest.now ≡ text.now) }
    ensures versions { OnOk result (list_all (fits_version second) history.new.events ≡ true) }
    ensures end { IfOk result (λ rest. IsNoEntry second (first_line rest.now)) }
{
    let mut scratch = Scratch {
        sizes: Vec::new(alloc),
        printed: Vec::new(alloc),
    };
    let mut rest = text;
    'lines: loop {
        let (line, more) = cut_line(rest);
        if !read_line(alloc, line, second, &mut scratch, history)? {
            return Ok(rest);
        }
        rest = more;
    }
}

/// Whether a line is the last one of the record so far.
fn is_last(history: &Record, second: bool, line: &[u8]) -> bool
    ensures closed { IsTrue result → line.now ≡ closed_line }
    ensures version { IsTrue result → list_any is_second history.now.events ≡ second }
    ensures none { result ≡ false → line.now ≡ closed_line → list_any is_second history.now.events ≡ second
        → ⊥ }
{
    line == b"closed\n".as_slice() && is_version_two(history) == second
}

/// The number of the first line that isn't a record's, if there is one after the entries.
fn malformed_line(history: &Record, second: bool, rest: &[u8]) -> Option<u64>
    requires { IsNoEntry second (first_line rest.now) }
    ensures { (text : List ℕ) → IsRead text second history.now.events rest.now
        → IsEndOf text history.now.events result }
{
    let (line, more) = cut_line(rest);
    if !is_last(history, second, line) {
        Some(history.len() as u64 + 2)
    } else if !more.is_empty() {
        Some(history.len() as u64 + 3)
    } else {
        None
    }
}

/// The record whose text this is, or the first line that no such text has.
pub fn parse(alloc: Global, bytes: &[u8]) -> Result<Record, RecordFault>
    ensures entries { IfOk result (λ r. AreEntries r.events) }
    ensures text { IfOk result (λ r. record_text r.events ≡ bytes.now) }
    ensures fault { IfErr result (IsFaultOf bytes.now) }
    ensures back { (es : List Event) → AreEntries es → record_text es ≡ bytes.now → IsReadBack es result }
{
    let (line, text) = cut_line(bytes);
    let Some(second) = version(line) else {
        return Err(RecordFault::Malformed(1));
    };
    let mut history = Record::with_room(alloc, 0, 0)?;
    let rest = read_entries(alloc, text, second, &mut history)?;
    history.has_entries();
    match malformed_line(&history, second, rest) {
        None => Ok(history),
        Some(line) => Err(RecordFault::Malformed(line)),
    }
}
