//! What a call of a case left, and how that differs from what the case says.

ghost use Rattle.std.specs.Prelude.{◌≡◌, ◌↔◌, IfOk, IfSome, IsTrue, false, option_map};
ghost use Rattle.outside.specs.code.MemoryHost.{host_store};
ghost use Rattle.outside.specs.code.MemorySink.{sink_bytes};
ghost use Rattle.cases.specs.Trace.{operation_lines};

use crate::case::{Complaint, Trial};
use crate::preparing::Given;
use crate::trace::trace_text;
use outside::{Memory, MemoryHost, MemorySink, Word};
use std::alloc::Global;
use toml::{Table, Value};

/// What a case says of the end of its calls.
#[derive(Clone, Copy)]
pub struct Wanted<'a> {
    status: u8,
    text: &'a str,
    /// Whether the text is only what follows the last line of a record: of a run by several workers the record differs from
    /// call to call.
    after_record: bool,
    trace: Option<&'a str>,
}

/// The status that a case has to say.
fn status_at(trial: &mut Trial, case: &Table) -> u8 {
    match case.get("status") {
        Some(status) => trial.byte_of(status, "status"),
        None => {
            trial.misfit("status");
            0
        }
    }
}

/// The text that a case has to say.
fn needed_text_at<'a>(trial: &mut Trial, case: &'a Table) -> &'a str {
    match trial.text_at(case, "text") {
        Some(text) => text,
        None => {
            trial.misfit("text");
            ""
        }
    }
}

impl<'a> Wanted<'a> {
    pub fn of(trial: &mut Trial, case: &'a Table) -> Wanted<'a> {
        Wanted {
            status: status_at(trial, case),
            text: needed_text_at(trial, case),
            after_record: trial.flag_at(case, "after_record"),
            trace: trial.text_at(case, "trace"),
        }
    }
}

/// What a call left.
#[derive(Clone, Copy)]
pub struct Ended<'a> {
    pub status: u8,
    pub sink: &'a MemorySink,
    pub host: &'a MemoryHost,
    /// Whether the first run of a tool, or the first task at a gate, was held until its limit, where the case holds it.
    pub is_held_out: bool,
    /// Whether a tool was run before the gate was asked for its task, where the case looks for that.
    pub is_early: bool,
}

/// Whether a file is as it has to be: these bytes, or nothing.
fn holds(found: Option<&[u8]>, wanted: Option<&str>) -> bool
    ensures { IsTrue result ↔ (option_map (λ b. b.now) found.entry ≡ option_map (λ t. t.now) wanted.entry) }
{
    match (found, wanted) {
        (Some(found), Some(wanted)) => found == wanted.as_bytes(),
        (None, None) => true,
        _ => false,
    }
}

/// Tells what is found under some names, with the word for it or that for nothing, where it isn't what has to be there.
fn tell_other(
    trial: &mut Trial,
    (there, absent): (&str, &str),
    names: &[Word<'_>],
    (found, wanted): (Option<&[u8]>, Option<&str>),
) {
    if holds(found, wanted) {
        return;
    }
    match found {
        Some(bytes) => {
            trial.tell(there, names);
            trial.tell_quoted(bytes);
        }
        None => trial.tell(absent, names),
    }
}

/// Tells what stands under a name at a site, or is delivered, where that isn't as it has to be.
fn tell_file(
    trial: &mut Trial,
    host: &MemoryHost,
    site: Option<&str>,
    name: &str,
    wanted: Option<&str>,
) {
    let word = Word::Name(name.as_bytes());
    match site {
        Some(site) => {
            let names = [Word::Name(site.as_bytes()), word];
            let found = (host.scratch(site, name), wanted);
            tell_other(trial, ("  stored", "  not stored"), &names, found);
        }
        None => {
            let found = (host.delivered(name), wanted);
            tell_other(trial, ("  delivered", "  not delivered"), &[word], found);
        }
    }
}

/// Tells those of some files that aren't as they have to be.
fn tell_files(
    trial: &mut Trial,
    host: &MemoryHost,
    site: Option<&str>,
    (files, key): (&Table, &'static str),
) {
    for (name, wanted) in files.iter() {
        let wanted = trial.text_of(wanted, key);
        tell_file(trial, host, site, name.as_str(), Some(wanted));
    }
}

/// Tells those of some files that are there, and have to be absent.
fn tell_present(
    trial: &mut Trial,
    host: &MemoryHost,
    site: Option<&str>,
    (names, key): (&[Value], &'static str),
) {
    for name in names {
        let name = trial.text_of(name, key);
        tell_file(trial, host, site, name, None);
    }
}

/// Tells the files that aren't delivered as a case says.
fn tell_deliveries(trial: &mut Trial, host: &MemoryHost, case: &Table) {
    if let Some(files) = trial.table_at(case, "delivered") {
        tell_files(trial, host, None, (files, "delivered"));
    }
    let names = trial.items_at(case, "not_delivered");
    tell_present(trial, host, None, (names, "not_delivered"));
}

/// Tells the files that don't stand at the sites as a case says.
fn tell_stored(trial: &mut Trial, host: &MemoryHost, case: &Table) {
    if let Some(sites) = trial.table_at(case, "stored") {
        for (site, files) in sites.iter() {
            if let Some(files) = trial.table_of(files, "stored") {
                tell_files(trial, host, Some(site.as_str()), (files, "stored"));
            }
        }
    }
}

/// Tells the files that stand at the sites, and mustn't.
fn tell_not_stored(trial: &mut Trial, host: &MemoryHost, case: &Table) {
    if let Some(sites) = trial.table_at(case, "not_stored") {
        for (site, names) in sites.iter() {
            let names = trial.items_of(names, "not_stored");
            tell_present(trial, host, Some(site.as_str()), (names, "not_stored"));
        }
    }
}

/// Tells the words with which a line of what was written has to begin, and none does.
fn tell_missing(trial: &mut Trial, written: &[u8], case: &Table) {
    for word in trial.items_at(case, "has_lines") {
        let word = trial.text_of(word, "has_lines");
        let mut lines = written.split(|byte| *byte == b'\n');
        if !lines.any(|line| line.starts_with(word.as_bytes())) {
            trial.tell("  no line", &[Word::Plain(word)]);
        }
    }
}

/// Tells the changes that a host made, where a case says others.
fn tell_trace(trial: &mut Trial, host: &MemoryHost, wanted: Option<&str>) {
    let Some(wanted) = wanted else {
        return;
    };
    match trace_text(trial.alloc, host.trace()) {
        Ok(trace) if trace.as_slice() == wanted.as_bytes() => {}
        Ok(trace) => {
            trial.tell("  trace", &[]);
            trial.tell_quoted(&trace);
        }
        Err(Memory) => trial.complain(Complaint::Memory),
    }
}

/// Tells the words of a call, and how long the document is that is cut.
fn tell_call(trial: &mut Trial, words: &[String], cut: Option<(&str, usize)>) {
    for word in words {
        trial.tell("  word", &[Word::Name(word.as_bytes())]);
    }
    if let Some((_, end)) = cut {
        trial.tell("  front", &[Word::Number(end as u64)]);
    }
}

/// Whether a host made the changes that a case says, if it says any.
fn is_traced(alloc: Global, host: &MemoryHost, wanted: Option<&str>) -> Result<bool, Memory>
    ensures { IfOk result (λ met. IsTrue met
        → IfSome wanted.entry (λ text. operation_lines (host_store host.now).trace ≡ text.now)) }
{
    let Some(wanted) = wanted else {
        return Ok(true);
    };
    let trace = trace_text(alloc, host.trace())?;
    Ok(trace.as_slice() == wanted.as_bytes())
}

impl Ended<'_> {
    fn is_written(&self, wanted: &Wanted<'_>) -> bool
        ensures { IsTrue result → wanted.now.after_record ≡ false
            → sink_bytes self.now.sink.now ≡ wanted.now.text.now }
    {
        let written = self.sink.bytes();
        if !wanted.after_record {
            return written == wanted.text.as_bytes();
        }
        match written.strip_suffix(wanted.text.as_bytes()) {
            Some(record) => record.ends_with(b"\nclosed\n"),
            None => false,
        }
    }

    /// Whether the call ended as its case says, but for its lines and files.
    fn is_met(&self, alloc: Global, wanted: &Wanted<'_>) -> Result<bool, Memory>
        ensures status { IfOk result (λ met. IsTrue met → self.now.status ≡ wanted.now.status) }
        ensures text { IfOk result (λ met. IsTrue met → wanted.now.after_record ≡ false
            → sink_bytes self.now.sink.now ≡ wanted.now.text.now) }
        ensures trace { IfOk result (λ met. IsTrue met → IfSome wanted.now.trace
            (λ text. operation_lines (host_store self.now.host.now).trace ≡ text.now)) }
    {
        if self.status != wanted.status || !self.is_written(wanted) {
            return Ok(false);
        }
        if self.is_held_out || self.is_early {
            return Ok(false);
        }
        is_traced(alloc, self.host, wanted.trace)
    }

    /// Tells what the call left that isn't as its case says.
    fn tell_others(&self, trial: &mut Trial, given: &Given<'_>) {
        if self.is_held_out {
            trial.tell("  held to its limit", &[]);
        }
        if self.is_early {
            trial.tell("  run before its gate", &[]);
        }
        tell_missing(trial, self.sink.bytes(), given.case);
        tell_deliveries(trial, self.host, given.case);
        tell_stored(trial, self.host, given.case);
        tell_not_stored(trial, self.host, given.case);
        tell_trace(trial, self.host, given.wanted.trace);
    }

    /// Tells what came of the call of these words, where it didn't end as its case says; answers whether it did.
    pub fn tell_unless_met(&self, trial: &mut Trial, given: &Given<'_>, words: &[String]) -> bool {
        tell_call(trial, words, given.cut);
        trial.tell("  status", &[Word::Number(u64::from(self.status))]);
        trial.tell_quoted(self.sink.bytes());
        let told = trial.text.len();
        self.tell_others(trial, given);
        match self.is_met(trial.alloc, &given.wanted) {
            Ok(is_met) => {
                let is_met = is_met && trial.text.len() == told;
                if is_met {
                    trial.text.clear();
                }
                is_met
            }
            Err(Memory) => {
                trial.complain(Complaint::Memory);
                false
            }
        }
    }
}
