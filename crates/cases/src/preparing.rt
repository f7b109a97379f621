//! The objects that a call of a case is given.

ghost use Rattle.std.specs.Prelude.{◌≡◌, ◌<◌, IfSome, OnOk, [], length};

use crate::case::{Complaint, Trial};
use crate::ended::Wanted;
use craft::{Crew, Faulty, Hold, Holding, HoldingGate};
use outside::{Memory, MemoryDocs, MemoryHost, MemorySink};
use std::alloc::Global;
use std::sync::Arc;
use std::sync::atomic::Ordering;
use toml::{Table, Value};
use toolbox::Shipped;

/// What a call of a case is given: what stands for the file's cases, what the case has of its own, and the document that
/// is cut, with how many bytes are left of it.
#[derive(Clone, Copy)]
pub struct Given<'a> {
    pub file: &'a Table,
    pub case: &'a Table,
    pub wanted: Wanted<'a>,
    pub cut: Option<(&'a str, usize)>,
}

impl Given<'_> {
    /// The number of bytes of a document, that of the case before that of its file; 0 where there is none.
    pub fn length_of(&self, trial: &mut Trial, name: &str) -> usize {
        for table in [self.case, self.file] {
            if let Some(documents) = trial.table_at(table, "documents") {
                if let Some(content) = documents.get(name) {
                    return trial.content_of(content, "documents").len();
                }
            }
        }
        0
    }
}

/// How often a held run looks whether another one was answered, or a task that is held at its gate whether another one
/// came: for some seconds, in which a busy machine has given the other thread its turn.
const HELD_LOOKS: u64 = 1_000_000_000;

/// A member of the crew, as the cases have it.
pub type Member = Crew<Holding<Faulty<Shipped>>, HoldingGate>;

fn put_document(
    trial: &mut Trial,
    docs: &mut MemoryDocs,
    (name, content): (&str, &Value),
    cut: Option<(&str, usize)>,
) {
    let mut bytes = trial.content_of(content, "documents");
    if let Some((front, end)) = cut {
        if name == front {
            bytes.truncate(end);
        }
    }
    let put = docs.put(trial.alloc, name, &bytes);
    trial.keep(put);
}

/// The documents that a call finds: those of the file, and then those of the case.
pub fn docs_of(trial: &mut Trial, given: &Given<'_>) -> MemoryDocs {
    let failing = trial.numbers_at(given.case, "failing_fetch");
    let mut docs = MemoryDocs::new(trial.alloc, failing);
    for table in [given.file, given.case] {
        if let Some(documents) = trial.table_at(table, "documents") {
            for (name, content) in documents.iter() {
                put_document(trial, &mut docs, (name.as_str(), content), given.cut);
            }
        }
    }
    docs
}

/// Adds replicas, or files of a site.
fn put_files(
    trial: &mut Trial,
    host: &mut MemoryHost,
    site: Option<&str>,
    (files, key): (&Table, &'static str),
) {
    for (name, content) in files.iter() {
        let bytes = trial.content_of(content, key);
        let put = match site {
            Some(site) => host.put_scratch(trial.alloc, site, name.as_str(), &bytes),
            None => host.put_replica(trial.alloc, name.as_str(), &bytes),
        };
        trial.keep(put);
    }
}

/// Adds the replicas and the sites' files of a file or a case.
fn put_all_files(trial: &mut Trial, host: &mut MemoryHost, table: &Table) {
    if let Some(replicas) = trial.table_at(table, "replicas") {
        put_files(trial, host, None, (replicas, "replicas"));
    }
    if let Some(sites) = trial.table_at(table, "scratch") {
        for (site, files) in sites.iter() {
            if let Some(files) = trial.table_of(files, "scratch") {
                put_files(trial, host, Some(site.as_str()), (files, "scratch"));
            }
        }
    }
}

/// The store that a call finds.
pub fn host_of(trial: &mut Trial, given: &Given<'_>) -> MemoryHost {
    let calls = trial.numbers_at(given.case, "failing_host");
    let parts = trial.pairs_at(given.case, "failing_part");
    let mut host = MemoryHost::with_parts(trial.alloc, calls, parts);
    put_all_files(trial, &mut host, given.file);
    put_all_files(trial, &mut host, given.case);
    host
}

/// How many bytes the case says under a key.
fn limit_of(trial: &mut Trial, case: &Table, key: &'static str) -> usize
    ensures { 0 < result }
{
    match trial.number_at(case, key) {
        Some(number) => (number as usize).max(1),
        None => 65_536,
    }
}

/// The sink that a call writes into.
pub fn sink_of(trial: &mut Trial, case: &Table) -> Option<MemorySink> {
    let room = limit_of(trial, case, "room");
    let taken = limit_of(trial, case, "write_takes");
    let failing = trial.numbers_at(case, "failing_write");
    match MemorySink::new(trial.alloc, room, taken, failing) {
        Ok(sink) => Some(sink),
        Err(Memory) => {
            trial.complain(Complaint::Memory);
            None
        }
    }
}

/// What holds the first run of a tool, and the first task at a gate, for so many looks, and whether each run has to come after
/// a task of its own at the gates.
#[derive(Drop)]
pub struct Held {
    runs: Arc<Hold>,
    run_looks: u64,
    gates: Arc<Hold>,
    gate_looks: u64,
    gate_first: bool,
}

impl Held {
    fn new(
        alloc: Global,
        run_looks: u64,
        gate_looks: u64,
        gate_first: bool,
    ) -> Result<Held, Memory> {
        let runs = Arc::new(alloc, Hold::new())?;
        Ok(Held {
            gates: Arc::new(alloc, Hold::new())?,
            gate_looks,
            gate_first,
            runs,
            run_looks,
        })
    }

    /// Whether the first run, or the first task at a gate, was held until its limit, where the case holds it.
    pub fn is_spent(&self) -> bool {
        self.run_looks > 0 && self.runs.spent.load(Ordering::SeqCst) != 0
            || self.gates.spent.load(Ordering::SeqCst) != 0
    }

    /// Whether a run began before its task had come to a gate, where the case asks for that.
    pub fn is_early(&self) -> bool {
        self.gate_first && self.runs.early.load(Ordering::SeqCst) != 0
    }
}

/// How often something looks that is held where the case sets a flag.
fn looks_of(trial: &mut Trial, case: &Table, key: &'static str) -> u64 {
    if trial.flag_at(case, key) {
        HELD_LOOKS
    } else {
        0
    }
}

/// What holds a run or a task, as the case says.
pub fn held_of(trial: &mut Trial, case: &Table) -> Option<Held> {
    let run_looks = looks_of(trial, case, "first_run_held");
    let gate_looks = looks_of(trial, case, "first_gate_held");
    let gate_first = trial.flag_at(case, "gate_first");
    match Held::new(trial.alloc, run_looks, gate_looks, gate_first) {
        Ok(held) => Some(held),
        Err(Memory) => {
            trial.complain(Complaint::Memory);
            None
        }
    }
}

fn member_of(alloc: Global, failing: &[u64], held: &Held) -> Result<Member, Memory> {
    let tool = Faulty::new(Shipped::new(), Vec::from_slice(alloc, failing)?);
    let runs = held.runs.clone()?;
    let gates = held.gates.clone()?;
    Ok(Crew {
        gate: HoldingGate::new(held.gates.clone()?, held.gate_looks),
        tool: Holding::new(tool, runs, gates, held.run_looks),
    })
}

fn push_members(
    alloc: Global,
    crew: &mut Vec<Member>,
    failing: &[u64],
    held: &Held,
) -> Result<(), Memory>
    requires { crew.old.items ≡ [] }
    ensures { OnOk result (length crew.new.items ≡ 16) }
{
    for member in 0..16_usize {
        crew.push(member_of(alloc, failing, held)?)?;
    }
    Ok(())
}

/// As many members as the program has, of whose tools some runs fail.
pub fn crew_of(trial: &mut Trial, case: &Table, held: &Held) -> Option<Vec<Member>>
    ensures { IfSome result (λ crew. length crew.items ≡ 16) }
{
    let failing = trial.numbers_at(case, "failing_run");
    let mut crew = Vec::new(trial.alloc);
    match push_members(trial.alloc, &mut crew, &failing, held) {
        Ok(()) => Some(crew),
        Err(Memory) => {
            drop(crew);
            trial.complain(Complaint::Memory);
            None
        }
    }
}
