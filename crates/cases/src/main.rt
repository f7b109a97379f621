//! The cases of the product: calls of `pegasus_cli::pegasus` that stand as TOML files in `data/`.
//!
//! Each word names a file of cases. A case's call is made over objects in memory and the shipped
//! transformations, and has to end with the status, the text, the files and the trace that the case
//! says. A line tells each case, `ok NAME` or `differs NAME` with what came instead, `unread FILE` what
//! can't be read, and a last line how many cases there are. The status is 1 where a case differs or
//! something can't be read.
#![tactic(auto)]

mod calling;
mod case;
mod ended;
mod preparing;
mod report;
mod trace;

use host_files::StreamSink;
use outside::{Memory, Sink, SinkFault, write_all};
use pegasus_cli::{Outcome, user_words};
use report::Report;
use std::alloc::{Alloc, Global};
use std::process::ExitCode;
use std::rt::Files;
use std::sync::Wait;
use std::thread::Threads;
use std::{env, fs, io};

/// Tells the cases of each file.
fn tell<R: Alloc + Files + Threads + Wait + Sync>(
    rt: &R,
    alloc: Global,
    report: &mut Report,
    files: &[String],
) -> Result<(), Memory> {
    for file in files {
        let name = file.as_str();
        match fs::read_to_string(rt, name) {
            Ok(text) => report.add_file(rt, alloc, name, text.as_str())?,
            Err(_) => report.add_unread(&[name, ": the file is absent, or no text"])?,
        }
    }
    Ok(())
}

/// Writes all that was told; answers the status.
fn write<K: Sink>(alloc: Global, out: &mut K, report: &mut Report) -> Result<u8, Memory> {
    match write_all(out, report.finish(alloc)?) {
        Ok(()) => Ok(report.status()),
        Err(SinkFault::Failed) => Ok(Outcome::SinkFailed.code()),
    }
}

/// The status that the program ends with.
fn status_of<R: Alloc + Files + Threads + Wait + Sync, K: Sink>(
    rt: &R,
    alloc: Global,
    files: &[String],
    out: &mut K,
) -> Result<u8, Memory> {
    let mut report = Report::new(alloc);
    let status = match tell(rt, alloc, &mut report, files) {
        Ok(()) => write(alloc, out, &mut report),
        Err(Memory) => Err(Memory),
    };
    drop(report);
    status
}

fn main(rt: HostRuntime) -> ExitCode {
    let alloc = rt.alloc();
    let Ok(files) = user_words(alloc, env::args(&rt)) else {
        return ExitCode::from(Outcome::Memory.code());
    };
    let mut out = StreamSink::new(io::writer(&rt));
    match status_of(&rt, alloc, &files, &mut out) {
        Ok(status) => ExitCode::from(status),
        Err(Memory) => ExitCode::from(Outcome::Memory.code()),
    }
}
