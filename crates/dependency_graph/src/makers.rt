//! Which jobs make a file.

ghost use Rattle.std.specs.Prelude.{◌≡◌, ◌<◌, ◌≤◌, ◌^◌, ℕ, false, Some, map, length, IfOk, MatchOption, All};
ghost use Rattle.workflow_core.specs.WellFormed.{outputs_of};
ghost use Rattle.values.specs.declared.numbers.FileId.{FileId};
ghost use Rattle.values.specs.declared.numbers.JobId.{JobId};
ghost use Rattle.dependency_graph.specs.Edges.{makers_from};
ghost use Rattle.dependency_graph.specs.code.Makers.{known, noted, first_two, are_two, AreNoted};

use std::alloc::Global;
use values::{FileId, JobId, Memory};
use workflow_core::{Job, Output};

/// The first two jobs that make a file.
#[derive(Clone, Copy, PartialEq, Eq)]
pub struct Makers {
    pub first: Option<JobId>,
    pub second: Option<JobId>,
}

fn noted(makers: Makers, job: JobId) -> Makers
    ensures { result ≡ noted job makers }
{
    match makers.first {
        None => Makers {
            first: Some(job),
            second: makers.second,
        },
        Some(first) => Makers {
            first: Some(first),
            second: if first.0 == job.0 {
                makers.second
            } else {
                match makers.second {
                    None => Some(job),
                    Some(second) => Some(second),
                }
            },
        },
    }
}

/// Notes a job at each file that it makes.
fn note(table: &mut Vec<Makers>, outputs: &[Output], job: JobId)
    requires { All (λ o. o.file.0 < length table.old.items) outputs.now }
    ensures long { length table.new.items ≡ length table.old.items }
    ensures noted { AreNoted table.old.items table.new.items job (map (λ o. o.file.0) outputs.now) }
{
    for output in outputs {
        let file = output.file.0 as usize;
        table[file] = noted(table[file], job);
    }
}

/// The first two jobs that make each file.
pub fn makers_of(alloc: Global, jobs: &[Job], files: usize) -> Result<Vec<Makers>, Memory>
    requires few { length jobs.now ≤ 10000 }
    requires in_range { All (λ j. All (λ f. f < files) (outputs_of j)) jobs.now }
    ensures long { IfOk result (λ table. length table.items ≡ files) }
    ensures first { IfOk result (λ table. (f : ℕ) → f < files
        → known table.items f ≡ first_two (makers_from f 0 jobs.now)) }
{
    let nobody = Makers {
        first: None,
        second: None,
    };
    let mut table = vec![in alloc; nobody; files]?;
    for (i, job) in jobs.iter().enumerate() {
        note(&mut table, job.outputs.as_slice(), JobId(i as u32));
    }
    Ok(table)
}

/// The first file with two jobs that make it, and these.
pub fn contested(table: &[Makers]) -> Option<(FileId, JobId, JobId)>
    requires { length table.now < 2 ^ 32 }
    ensures { MatchOption result ((f : ℕ) → f < length table.now → are_two (known table.now f) ≡ false)
        (λ (x : FileId × JobId × JobId). (x.0.0 < length table.now)
        × ((known table.now x.0.0).first ≡ Some x.1) × ((known table.now x.0.0).second ≡ Some x.2)
        × ((f : ℕ) → f < x.0.0 → are_two (known table.now f) ≡ false)) }
{
    for (i, makers) in table.iter().enumerate() {
        if let (Some(first), Some(second)) = (makers.first, makers.second) {
            return Some((FileId(i as u32), first, second));
        }
    }
    None
}

/// The one job that makes each file, where at most one does.
pub fn first_makers(alloc: Global, table: &[Makers]) -> Result<Vec<Option<JobId>>, Memory>
    ensures { IfOk result (λ v. v.items ≡ map (λ m. m.first) table.now) }
{
    Ok(table.iter().map(|makers| makers.first).collect(alloc)?)
}
