//! The calls of a case, over objects in memory.

ghost use Rattle.std.specs.Prelude.{◌≡◌, length};

use crate::case::{Complaint, Trial};
use crate::ended::{Ended, Wanted};
use crate::preparing::{Given, Held, Member, crew_of, docs_of, held_of, host_of, sink_of};
use craft::{Crew, Gate};
use outside::{Docs, Host, MemoryDocs, MemorySink, Sink, Tool};
use pegasus_cli::{Outcome, pegasus};
use std::alloc::Global;
use std::sync::Wait;
use std::thread::Threads;
use toml::Table;

/// The status for how a call ended.
fn code_of(outcome: Outcome) -> u8 {
    let code = outcome.code();
    // By a call: where a large enum is dropped in place, the prover runs out of memory.
    drop(outcome);
    code
}

/// A call over any objects, since the clauses of `pegasus` are long, and longer where the objects are known.
fn status_of<
    R: Threads + Wait + Sync,
    D: Docs,
    K: Sink,
    H: Host + Send,
    T: Tool + Send,
    G: Gate + Send,
>(
    rt: &R,
    alloc: Global,
    words: &[String],
    docs: &mut D,
    sink: &mut K,
    host: H,
    crew: Vec<Crew<T, G>>,
) -> (u8, H)
where
    H::Reading: Send,
    H::Draft: Send,
    requires { length crew.items ≡ 16 }
{
    let (outcome, host, _) = pegasus(rt, alloc, words, docs, sink, host, crew);
    (code_of(outcome), host)
}

/// Makes a call over these objects; tells what came of it where it doesn't end as the case says, and answers whether it
/// does.
fn is_met_by<R: Threads + Wait + Sync>(
    rt: &R,
    trial: &mut Trial,
    given: &Given<'_>,
    words: &[String],
    objects: (&mut MemoryDocs, &mut MemorySink),
    crew: Vec<Member>,
    held: &Held,
) -> bool
    requires { length crew.items ≡ 16 }
{
    let (docs, sink) = objects;
    let host = host_of(trial, given);
    if trial.complaint.is_some() {
        drop(crew);
        drop(host);
        return false;
    }
    let (status, host) = status_of(rt, trial.alloc, words, docs, sink, host, crew);
    let ended = Ended {
        status,
        sink,
        host: &host,
        is_held_out: held.is_spent(),
        is_early: held.is_early(),
    };
    let is_met = ended.tell_unless_met(trial, given, words);
    drop(host);
    is_met
}

/// Makes a call of these words over these documents and this sink.
fn is_met_over<R: Threads + Wait + Sync>(
    rt: &R,
    trial: &mut Trial,
    given: &Given<'_>,
    words: &[String],
    objects: (&mut MemoryDocs, &mut MemorySink),
) -> bool {
    let Some(held) = held_of(trial, given.case) else {
        return false;
    };
    let is_met = match crew_of(trial, given.case, &held) {
        Some(crew) => is_met_by(rt, trial, given, words, objects, crew, &held),
        None => false,
    };
    drop(held);
    is_met
}

/// Whether a call of these words ends as the case says.
fn is_met<R: Threads + Wait + Sync>(
    rt: &R,
    trial: &mut Trial,
    given: &Given<'_>,
    words: &[String],
) -> bool {
    let mut docs = docs_of(trial, given);
    let is_met = match sink_of(trial, given.case) {
        Some(mut sink) => {
            let is_met = is_met_over(rt, trial, given, words, (&mut docs, &mut sink));
            drop(sink);
            is_met
        }
        None => false,
    };
    drop(docs);
    is_met
}

/// Whether a call ends so over each shorter front, where the case says so, up to the first that doesn't.
fn is_met_throughout<R: Threads + Wait + Sync>(
    rt: &R,
    trial: &mut Trial,
    given: &Given<'_>,
    words: &[String],
) -> bool {
    let Some(front) = trial.text_at(given.case, "each_front") else {
        return is_met(rt, trial, given, words);
    };
    let length = given.length_of(trial, front);
    if length == 0 {
        trial.complain(Complaint::Idle("no document has the fronts"));
    }
    for end in 0..length {
        let cut = Given {
            cut: Some((front, end)),
            ..*given
        };
        if !is_met(rt, trial, &cut, words) {
            return false;
        }
    }
    true
}

/// Whether each of a case's calls ends as the case says, up to the first that doesn't.
pub fn is_case_met<R: Threads + Wait + Sync>(
    rt: &R,
    trial: &mut Trial,
    file: &Table,
    case: &Table,
) -> bool {
    let calls = match trial.items_at(case, "calls") {
        [] => trial.items_at(file, "calls"),
        own => own,
    };
    if calls.is_empty() {
        trial.complain(Complaint::Idle("there are no calls"));
    }
    let given = Given {
        file,
        case,
        wanted: Wanted::of(trial, case),
        cut: None,
    };
    for call in calls {
        let words = trial.words_of(call);
        if !is_met_throughout(rt, trial, &given, &words) {
            return false;
        }
    }
    true
}
