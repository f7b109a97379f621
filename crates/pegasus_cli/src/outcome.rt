//! How a call ends, its line and its status.

ghost use Rattle.std.specs.Prelude.{◌≡◌, ◌++◌, OnOk};
ghost use Rattle.pegasus_cli.specs.code.Outcome.{IsAnswer, closing, exceeds_line, line_of, outcome_of};

use crate::ensemble_line::{push_ensemble, push_member};
use ensemble::EnsembleFault;
use outside::{Memory, TaskId, Text, Word, push_line};
use pegasus_commands::CallFault;
use planner::{PlanFault, push_refused};
use rehearsal::Rehearsal;
use run_record::{RunFault, push_failed};
use std::alloc::Global;

const USAGE: &str =
    "usage: pegasus check|plan|eval|alone REQ, run REQ --workers N, audit|stat REQ RECORD, resume REQ RECORD, produce REQ, ensemble ENS [--workers N], schedule REQ, rehearse N [--workers N]";

/// How a call ended.
#[derive(Drop)]
pub enum Outcome {
    /// All was done; a rehearsal gives its record and its store back, and every other command nothing.
    Done(Option<Rehearsal>),
    /// No memory was left, and nothing is written.
    Memory,
    /// The words are no command.
    Usage,
    DocAbsent(Text),
    /// The document is longer than this limit, in bytes.
    DocTooLong(Text, u64),
    DocFailed(Text),
    Refused(PlanFault),
    /// No order fits: the first task that doesn't, its site, and the bytes that it would need there.
    Exceeds {
        site: Text,
        task: TaskId,
        needed: u64,
        bound: u64,
    },
    Failed(RunFault),
    /// The first line of a record that stands in no record's text, from 1.
    BadRecord(u64),
    /// The first entry of a record that isn't allowed after those before it, from 1.
    IllegalRecord(u64),
    RefusedEnsemble(EnsembleFault),
    /// A member of an ensemble, and why its request's documents are refused.
    RefusedMember(Text, PlanFault),
    /// The output could not be written whole.
    SinkFailed,
}

impl Outcome {
    ghost use Rattle.pegasus_cli.specs.code.Outcome.{status_of};

    /// The status that the program ends with.
    pub fn code(&self) -> u8
        ensures { result ≡ status_of self.now }
    {
        match self {
            Outcome::Done(_) => 0,
            Outcome::Memory => 1,
            Outcome::Usage => 2,
            Outcome::DocAbsent(_) | Outcome::DocTooLong(_, _) | Outcome::DocFailed(_) => 3,
            Outcome::Refused(_) | Outcome::RefusedEnsemble(_) | Outcome::RefusedMember(_, _) => 4,
            Outcome::Exceeds { .. } => 5,
            Outcome::Failed(_) => 6,
            Outcome::SinkFailed => 7,
            Outcome::BadRecord(_) | Outcome::IllegalRecord(_) => 8,
        }
    }
}

/// A command's answer as an outcome.
pub(crate) fn of_answer(answer: Result<Option<Rehearsal>, CallFault>) -> Outcome
    ensures is { result ≡ outcome_of answer }
    ensures answer { IsAnswer result }
{
    let fault = match answer {
        Ok(given) => return Outcome::Done(given),
        Err(fault) => fault,
    };
    match fault {
        CallFault::Memory => Outcome::Memory,
        CallFault::DocAbsent(name) => Outcome::DocAbsent(name),
        CallFault::DocTooLong(name, limit) => Outcome::DocTooLong(name, limit),
        CallFault::DocFailed(name) => Outcome::DocFailed(name),
        CallFault::Refused(fault) => Outcome::Refused(fault),
        CallFault::Exceeds {
            site,
            task,
            needed,
            bound,
        } => Outcome::Exceeds {
            site,
            task,
            needed,
            bound,
        },
        CallFault::Failed(fault) => Outcome::Failed(fault),
        CallFault::BadRecord(line) => Outcome::BadRecord(line),
        CallFault::IllegalRecord(entry) => Outcome::IllegalRecord(entry),
        CallFault::RefusedEnsemble(fault) => Outcome::RefusedEnsemble(fault),
        CallFault::RefusedMember(name, fault) => Outcome::RefusedMember(name, fault),
    }
}

fn push_exceeds(
    text: &mut Vec<u8>,
    site: &Text,
    task: TaskId,
    needed: u64,
    bound: u64,
) -> Result<(), Memory>
    ensures { OnOk result (text.new.items ≡ text.old.items ++ exceeds_line site.now task needed bound) }
{
    let site = Word::Name(site.as_bytes());
    let task = Word::Number(u64::from(task.0));
    let needed = Word::Number(needed);
    let bound = Word::Number(bound);
    push_line(text, "exceeds", &[site, task, needed, bound])
}

/// Adds the line of an outcome, where it has one.
fn push_outcome(alloc: Global, text: &mut Vec<u8>, outcome: &Outcome) -> Result<(), Memory>
    ensures { OnOk result (text.new.items ≡ text.old.items ++ line_of outcome.now) }
{
    match outcome {
        Outcome::Done(_) => push_line(text, "done", &[]),
        Outcome::Memory | Outcome::SinkFailed => Ok(()),
        Outcome::Usage => push_line(text, USAGE, &[]),
        Outcome::DocAbsent(name) => push_line(text, "no document", &[Word::Name(name.as_bytes())]),
        Outcome::DocTooLong(name, limit) => push_line(
            text,
            "document too long",
            &[Word::Name(name.as_bytes()), Word::Number(*limit)],
        ),
        Outcome::DocFailed(name) => push_line(
            text,
            "document failed",
            &[Word::Name(name.as_bytes())],
        ),
        Outcome::Refused(fault) => push_refused(text, fault),
        Outcome::Exceeds {
            site,
            task,
            needed,
            bound,
        } => push_exceeds(text, site, *task, *needed, *bound),
        Outcome::Failed(fault) => push_failed(alloc, text, fault),
        Outcome::BadRecord(line) => { push_line(text, "bad record", &[Word::Number(*line)]) }
        Outcome::IllegalRecord(entry) => {
            push_line(text, "illegal record", &[Word::Number(*entry)])
        }
        Outcome::RefusedEnsemble(fault) => push_ensemble(text, fault),
        Outcome::RefusedMember(name, fault) => push_member(alloc, text, name, fault),
    }
}

/// Adds the line that closes a text: that of its outcome, but none where a command without one is done.
pub(crate) fn push_closing(
    alloc: Global,
    text: &mut Vec<u8>,
    lined: bool,
    outcome: &Outcome,
) -> Result<(), Memory>
    ensures { OnOk result (text.new.items ≡ text.old.items ++ closing lined outcome.now) }
{
    match outcome {
        Outcome::Done(_) if !lined => Ok(()),
        outcome => push_outcome(alloc, text, outcome),
    }
}
