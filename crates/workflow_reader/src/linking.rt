//! From what stands in a document to its workflow.

ghost use Rattle.std.specs.Prelude.{◌≡◌, ◌≤◌, length, map, IfOk};
ghost use Rattle.peg_json.specs.Elements.{few};
ghost use Rattle.peg_json.specs.code.ReadFault.{GivesRead};
ghost use Rattle.peg_json.specs.declared.read_fault.Counted.TheVariants.{Files};
ghost use Rattle.workflow_core.specs.View.{workflow_view};
ghost use Rattle.workflow_core.specs.code.WellFormed.{IsWellFormed};
ghost use Rattle.workflow_reader.specs.code.Document.{entry};
ghost use Rattle.workflow_reader.specs.Linking.{files_of, sizes_of};
ghost use Rattle.workflow_reader.specs.Linking.{ids_of, dependency_pairs, linked_job, workflow_entry, linked};
ghost use Rattle.workflow_reader.specs.code.Small.{AreSmall};

use crate::document::{Document, JobEntry};
use crate::duplicates::{all_used_once, ids_of};
use crate::files::{files_of, sizes_of};
use crate::job_linking::linked_jobs;
use crate::pairs::{all_known, pairs_of};
use peg_json::{Counted, ReadFault, at_most};
use std::alloc::Global;
use values::{Items, JobId, Memory, Text};
use workflow_core::{Job, Names, Workflow, names_are_numbered};

const MAX_JOBS: u64 = 10_000;

const MAX_FILES: u64 = 50_000;

/// The names of a document's files, and the ids of its jobs.
#[derive(Drop)]
struct Tables {
    files: Names,
    ids: Names,
}

/// The names of the files, if they aren't too many.
fn few_files_of(alloc: Global, jobs: &[JobEntry]) -> Result<Names, ReadFault>
    ensures answer { GivesRead (λ _. tt) result (few Files 50000 (length (files_of jobs.now))) }
    ensures files { IfOk result (λ files. files ≡ files_of jobs.now) }
    ensures few { IfOk result (λ files. length files ≤ 50000) }
{
    let files = files_of(alloc, jobs)?;
    match at_most(Counted::Files, MAX_FILES, files.len() as u64) {
        Ok(()) => Ok(files),
        Err(fault) => {
            drop(files);
            Err(fault)
        }
    }
}

/// Looks for a fault, and numbers files and jobs.
#[tactic(auto, unfolding(crate::specs::Linking::linked))]
fn tables_of(alloc: Global, document: &Document) -> Result<Tables, ReadFault>
    ensures answer { GivesRead (λ _. workflow_entry (entry document.now)) result
        (linked (entry document.now)) }
    ensures files { IfOk result (λ t. t.files ≡ files_of document.now.jobs) }
    ensures ids { IfOk result (λ t. t.ids ≡ ids_of document.now.jobs) }
    ensures few_files { IfOk result (λ t. length t.files ≤ 50000) }
    ensures few_ids { IfOk result (λ t. length t.ids ≤ 10000) }
{
    let jobs = document.jobs.as_slice();
    at_most(Counted::Jobs, MAX_JOBS, jobs.len() as u64)?;
    let files = few_files_of(alloc, jobs)?;
    let ids = match ids_of(alloc, jobs) {
        Ok(ids) => ids,
        Err(fault) => {
            drop(files);
            return Err(fault);
        }
    };
    let tables = Tables { files, ids };
    if let Err(fault) = all_used_once(alloc, jobs) {
        drop(tables);
        return Err(fault);
    }
    match all_known(alloc, &tables.ids, document.dependencies.as_slice()) {
        Ok(()) => Ok(tables),
        Err(fault) => {
            drop(tables);
            Err(fault)
        }
    }
}

/// The pairs of jobs by number, and the size of each file.
#[derive(Drop)]
struct Numbers {
    pairs: Items<(JobId, JobId)>,
    sizes: Items<Option<u64>>,
}

fn numbers_of(alloc: Global, document: &Document, tables: &Tables) -> Result<Numbers, Memory>
    requires files { tables.now.files ≡ files_of document.now.jobs }
    requires few_ids { length tables.now.ids ≤ 10000 }
    ensures pairs { IfOk result (λ n. n.pairs ≡ dependency_pairs tables.now.ids document.now.dependencies) }
    ensures sizes { IfOk result (λ n. n.sizes ≡ sizes_of document.now.jobs) }
{
    let pairs = pairs_of(alloc, &tables.ids, document.dependencies.as_slice())?;
    match sizes_of(alloc, &tables.files, document.jobs.as_slice()) {
        Ok(sizes) => Ok(Numbers { pairs, sizes }),
        Err(Memory) => {
            drop(pairs);
            Err(Memory)
        }
    }
}

/// The jobs with their files by number, and the names of these.
#[derive(Drop)]
struct Linked {
    jobs: Items<Job>,
    files: Items<Text>,
}

fn linked_by(alloc: Global, files: Names, jobs: Items<JobEntry>) -> Result<Linked, Memory>
    requires { length files ≤ 50000 }
    ensures jobs { IfOk result (λ l. l.jobs ≡ map (linked_job files) jobs) }
    ensures files { IfOk result (λ l. l.files ≡ files) }
{
    let Ok(jobs) = linked_jobs(alloc, &files, jobs.into_vec()) else {
        drop(files);
        return Err(Memory);
    };
    match files.into_items(alloc) {
        Ok(files) => Ok(Linked { jobs, files }),
        Err(Memory) => {
            drop(jobs);
            Err(Memory)
        }
    }
}

/// The workflow of a document without a fault.
fn numbered(
    alloc: Global,
    document: Document,
    tables: Tables,
    ignored: Vec<Text>,
) -> Result<Workflow, Memory>
    requires files { tables.files ≡ files_of document.jobs }
    requires ids { tables.ids ≡ ids_of document.jobs }
    requires few_files { length tables.files ≤ 50000 }
    requires few_ids { length tables.ids ≤ 10000 }
    ensures entry { IfOk result (λ w. workflow_view w ≡ workflow_entry (entry document)) }
    ensures ignored { IfOk result (λ w. w.ignored ≡ ignored.items) }
{
    let Ok(numbers) = numbers_of(alloc, &document, &tables) else {
        drop(document);
        drop(tables);
        drop(ignored);
        return Err(Memory);
    };
    drop(tables.ids);
    drop(document.dependencies);
    match linked_by(alloc, tables.files, document.jobs) {
        Ok(linked) => Ok(Workflow {
            name: document.name,
            jobs: linked.jobs,
            pairs: numbers.pairs,
            files: linked.files,
            sizes: numbers.sizes,
            inlined: document.inlined,
            ignored: Items::new(ignored),
        }),
        Err(Memory) => {
            drop(document.name);
            drop(document.inlined);
            drop(numbers);
            drop(ignored);
            Err(Memory)
        }
    }
}

/// The workflow that a document states, its jobs and files by number.
#[tactic(auto, using(crate::proofs::LinkingLemmas::well_formed))]
pub fn workflow_of(
    alloc: Global,
    document: Document,
    ignored: Vec<Text>,
) -> Result<Workflow, ReadFault>
    ensures answer { GivesRead workflow_view result (linked (entry document)) }
    ensures ignored { IfOk result (λ w. w.ignored ≡ ignored.items) }
    ensures well_formed { IfOk result (λ w. AreSmall document.jobs → IsWellFormed w) }
{
    // A law for the proof: it does nothing.
    names_are_numbered();
    let tables = match tables_of(alloc, &document) {
        Ok(tables) => tables,
        Err(fault) => {
            drop(document);
            drop(ignored);
            return Err(fault);
        }
    };
    let workflow = numbered(alloc, document, tables, ignored)?;
    Ok(workflow)
}
