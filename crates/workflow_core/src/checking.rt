//! Whether a workflow is well formed.

ghost use Rattle.std.specs.Prelude.{◌≡◌, ◌↔◌, true, map, nat_eq, nat_lt, IfOk};
ghost use Rattle.std.specs.List.{list_all};
ghost use Rattle.std.specs.Str.{bytes_eq};
ghost use Rattle.values.specs.declared.numbers.JobId.{JobId};
ghost use Rattle.workflow_core.specs.declared.workflow.Job.{Job};
ghost use Rattle.workflow_core.specs.code.WellFormed.{are_distinct, IsWellFormed};
ghost use Rattle.workflow_core.specs.code.Checking.{are_files, is_job_over, is_pair_of, is_small_size, are_few, are_named, passes};

use crate::names::Names;
use crate::workflow::{Job, Workflow};
use indexmap::IndexSet;
use std::alloc::Global;
use values::{JobId, Memory, Text};

fn are_distinct(alloc: Global, numbers: &[u32]) -> Result<bool, Memory>
    ensures { IfOk result (λ b. b ≡ are_distinct nat_eq numbers.now) }
{
    let mut known = IndexSet::new(alloc);
    for number in numbers {
        if known.contains(number) {
            return Ok(false);
        }
        known.insert(*number)?;
    }
    Ok(true)
}

fn are_distinct_texts(alloc: Global, texts: &[Text]) -> Result<bool, Memory>
    ensures { IfOk result (λ b. b ≡ are_distinct bytes_eq texts.now) }
{
    let mut known = Names::new(alloc);
    for text in texts {
        if known.contains(text) {
            return Ok(false);
        }
        known.add(alloc, text)?;
    }
    Ok(true)
}

fn are_below(numbers: &[u32], bound: usize) -> bool
    ensures { result ≡ list_all (λ n. nat_lt n bound) numbers.now }
{
    numbers.iter().all(|number| (*number as usize) < bound)
}

fn are_files(alloc: Global, numbers: &[u32], files: usize) -> Result<bool, Memory>
    ensures { IfOk result (λ b. b ≡ are_files files numbers.now) }
{
    if !are_below(numbers, files) {
        return Ok(false);
    }
    are_distinct(alloc, numbers)
}

fn is_job_over(alloc: Global, job: &Job, files: usize) -> Result<bool, Memory>
    ensures { IfOk result (λ b. b ≡ is_job_over files job.now) }
{
    let inputs: Vec<u32> = job.inputs.as_slice().iter().map(|f| f.0).collect(alloc)?;
    let outputs: Vec<u32> = job
        .outputs
        .as_slice()
        .iter()
        .map(|o| o.file.0)
        .collect(alloc)?;
    if !are_files(alloc, &inputs, files)? {
        return Ok(false);
    }
    are_files(alloc, &outputs, files)
}

fn are_jobs_over(alloc: Global, jobs: &[Job], files: usize) -> Result<bool, Memory>
    ensures { IfOk result (λ b. b ≡ list_all (is_job_over files) jobs.now) }
{
    for job in jobs {
        if !is_job_over(alloc, job, files)? {
            return Ok(false);
        }
    }
    Ok(true)
}

fn are_pairs_of(pairs: &[(JobId, JobId)], jobs: usize) -> bool
    ensures { result ≡ list_all (is_pair_of jobs) pairs.now }
{
    pairs.iter().all(|pair| (pair.0.0 as usize) < jobs && (pair.1.0 as usize) < jobs)
}

fn ids_of(alloc: Global, jobs: &[Job]) -> Result<Vec<Text>, Memory>
    ensures { IfOk result (λ v. v.items ≡ map (λ (j : Job). j.id) jobs.now) }
{
    let mut ids = Vec::new(alloc);
    for job in jobs {
        ids.push(job.id.copied(alloc)?)?;
    }
    Ok(ids)
}

fn is_small_size(size: Option<u64>) -> bool
    ensures { result ≡ is_small_size size }
{
    match size {
        Some(bytes) => bytes <= 1 << 40,
        None => true,
    }
}

fn are_small_sizes(sizes: &[Option<u64>]) -> bool
    ensures { result ≡ list_all is_small_size sizes.now }
{
    sizes.iter().all(|size| is_small_size(*size))
}

fn are_few(workflow: &Workflow) -> bool
    ensures { result ≡ are_few workflow.now }
{
    let files = workflow.files.as_slice().len();
    workflow.jobs.as_slice().len() <= 10_000
        && files <= 50_000
        && workflow.sizes.as_slice().len() == files
        && are_small_sizes(workflow.sizes.as_slice())
}

fn are_named(alloc: Global, workflow: &Workflow) -> Result<bool, Memory>
    ensures { IfOk result (λ b. b ≡ are_named workflow.now) }
{
    let ids = ids_of(alloc, workflow.jobs.as_slice())?;
    if !are_distinct_texts(alloc, &ids)? {
        return Ok(false);
    }
    are_distinct_texts(alloc, workflow.files.as_slice())
}

fn passes(alloc: Global, workflow: &Workflow) -> Result<bool, Memory>
    ensures { IfOk result (λ b. b ≡ passes workflow.now) }
{
    let jobs = workflow.jobs.as_slice();
    if !are_few(workflow) || !are_named(alloc, workflow)? {
        return Ok(false);
    }
    if !are_jobs_over(alloc, jobs, workflow.files.as_slice().len())? {
        return Ok(false);
    }
    Ok(are_pairs_of(workflow.pairs.as_slice(), jobs.len()))
}

/// Whether a workflow is well formed, for a caller that made it without a reader.
#[tactic(auto, using(crate::proofs::CheckingLemmas::passing))]
pub fn is_well_formed(alloc: Global, workflow: &Workflow) -> Result<bool, Memory>
    ensures { IfOk result (λ b. b ≡ true ↔ IsWellFormed workflow.now) }
{
    passes(alloc, workflow)
}
