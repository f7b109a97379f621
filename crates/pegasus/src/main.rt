//! The command line `pegasus`: `pegasus_cli::pegasus` over files of the user's folder, standard output, a
//! store of folders and the shipped tools. What it does is said in the contract of that call.
#![tactic(auto)]

ghost use Rattle.std.specs.Prelude.{◌≡◌, IfOk, length};

use craft::Crew;
use host_files::{
    FolderDocs, FolderHost, KeptRecord, Progress, RecordKeeper, ShownTool, StreamSink, WipingSink,
};
use pegasus_cli::{Outcome, pegasus, user_words};
use std::alloc::Global;
use std::io::IsTerminal;
use std::process::ExitCode;
use std::sync::Arc;
use std::{env, io};
use toolbox::Shipped;
use values::{Memory, Word, push_line};

/// A member with the shipped tools, whose runs the terminal shows, and a gate that keeps the record of a run.
type Member = Crew<ShownTool<Shipped, HostRuntime>, RecordKeeper<HostRuntime>>;

/// Sixteen members, which share their progress and the record that is kept.
fn crew_of(
    alloc: Global,
    progress: &Arc<Progress<HostRuntime>>,
    kept: &Arc<KeptRecord<HostRuntime>>,
) -> Result<Vec<Member>, Memory>
    ensures { IfOk result (λ crew. length crew.items ≡ 16) }
{
    let mut crew = Vec::new(alloc);
    for member in 0..16_usize {
        crew.push(Crew {
            tool: ShownTool::new(Shipped::new(), progress.clone()?),
            gate: RecordKeeper::new(alloc, kept.clone()?),
        })?;
    }
    Ok(crew)
}

/// Whether the words are of a command whose record is kept while it runs: a rehearsal leaves no file.
fn keeps_record(words: &[String]) -> bool {
    match words.first() {
        Some(word) => word.as_str() != "rehearse",
        None => false,
    }
}

/// The words of the call, a line each: what stands before the record that is kept.
fn head_of(alloc: Global, words: &[String]) -> Result<Vec<u8>, Memory> {
    let mut head = Vec::new(alloc);
    for word in words {
        push_line(&mut head, "word", &[Word::Name(word.as_bytes())])?;
    }
    Ok(head)
}

/// Whether the text of the call has been written, which has the record of a run.
fn is_told(outcome: &Outcome) -> bool {
    !matches!(outcome, Outcome::SinkFailed | Outcome::Memory)
}

/// The status for how the call ended.
fn status_of(outcome: Outcome) -> ExitCode {
    let code = outcome.code();
    // By a call: where a large enum is dropped in place, the prover runs out of memory.
    drop(outcome);
    ExitCode::from(code)
}

fn main(rt: HostRuntime) -> ExitCode {
    let alloc = rt.alloc();
    let Ok(words) = user_words(alloc, env::args(&rt)) else {
        return status_of(Outcome::Memory);
    };
    let shows = rt.stderr().is_terminal();
    let Ok(progress) = Arc::new(alloc, Progress::new(rt, shows)) else {
        return status_of(Outcome::Memory);
    };
    let Ok(head) = head_of(alloc, &words) else {
        return status_of(Outcome::Memory);
    };
    let Ok(kept) = Arc::new(alloc, KeptRecord::new(rt, keeps_record(&words), head)) else {
        return status_of(Outcome::Memory);
    };
    let Ok(crew) = crew_of(alloc, &progress, &kept) else {
        return status_of(Outcome::Memory);
    };
    let mut out = WipingSink::new(StreamSink::new(io::writer(&rt)), &progress);
    let host = FolderHost::new(rt);
    let mut docs = FolderDocs::new(rt);
    let (outcome, _, _) = pegasus(&rt, alloc, &words, &mut docs, &mut out, host, crew);
    progress.wipe();
    if is_told(&outcome) {
        kept.remove();
    }
    status_of(outcome)
}
