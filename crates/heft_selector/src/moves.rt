//! How long the files that a job reads take from each of its parents.

ghost use Rattle.std.specs.Prelude.{◌≡◌, ◌+◌, ◌-◌, ◌*◌, ◌<◌, ◌≤◌, ◌^◌, ℕ, Some, length, map, get_or, IfOk, OnOk, All};
ghost use Rattle.values.specs.declared.numbers.FileId.{FileId};
ghost use Rattle.values.specs.declared.numbers.JobId.{JobId};
ghost use Rattle.digraph.specs.code.Adjacency.{lists_of};
ghost use Rattle.dependency_graph.specs.Graph.{producer_of_file, jobs_at};
ghost use Rattle.heft_selector.specs.Costs.{size_at, seconds_for};
ghost use Rattle.heft_selector.specs.code.Carried.{bytes_at, made_for, carried, moves_by, AreMade, AreLists, AreMoves};

use dependency_graph::Graph;
use std::alloc::Global;
use values::{FileId, JobId, Memory};
use workflow_core::Job;

fn size_at(sizes: &[Option<u64>], file: FileId) -> u64
    ensures same { result ≡ size_at sizes.now file.0 }
    ensures small { result < 2 ^ 64 }
{
    match sizes.get(file.0 as usize) {
        Some(Some(size)) => *size,
        _ => 0,
    }
}

/// Adds to a job's bytes.
#[tactic(auto, using(crate::proofs::MoveLemmas::added_at))]
fn add(bytes: &mut [u128], maker: Option<JobId>, size: u64)
    requires maker { (j : JobId) → maker ≡ Some j → j.0 < length bytes.old }
    requires small { (a : ℕ) → bytes_at bytes.old a < 2 ^ 127 }
    ensures { (a : ℕ) → bytes_at bytes.new a ≡ bytes_at bytes.old a + made_for maker a size }
{
    if let Some(job) = maker {
        bytes[job.0 as usize] += size as u128;
    }
}

/// Takes from a job's bytes.
#[tactic(auto, using(crate::proofs::MoveLemmas::taken_at))]
fn lower(bytes: &mut [u128], maker: Option<JobId>, size: u64)
    requires maker { (j : JobId) → maker ≡ Some j → j.0 < length bytes.old }
    requires enough { (j : JobId) → maker ≡ Some j → size ≤ bytes_at bytes.old j.0 }
    ensures { (a : ℕ) → bytes_at bytes.new a + made_for maker a size ≡ bytes_at bytes.old a }
{
    if let Some(job) = maker {
        bytes[job.0 as usize] -= size as u128;
    }
}

/// Adds to each job's bytes those of the files that it makes.
fn load(bytes: &mut [u128], graph: &Graph, sizes: &[Option<u64>], files: &[FileId])
    requires files { AreMade graph.now.producers (length bytes.old) files.now }
    requires none { (a : ℕ) → bytes_at bytes.old a ≡ 0 }
    requires few { length files.now ≤ 50000 }
    ensures { (a : ℕ) → bytes_at bytes.new a ≡ carried graph.now.producers sizes.now a files.now }
{
    for file in files {
        let maker = graph.producer(*file);
        let size = size_at(sizes, *file);
        add(bytes, maker, size);
    }
}

/// Takes them away again.
fn unload(bytes: &mut [u128], graph: &Graph, sizes: &[Option<u64>], files: &[FileId])
    requires files { AreMade graph.now.producers (length bytes.old) files.now }
    requires loaded { (a : ℕ)
        → bytes_at bytes.old a ≡ carried graph.now.producers sizes.now a files.now }
    ensures { (a : ℕ) → bytes_at bytes.new a ≡ 0 }
{
    for file in files {
        let maker = graph.producer(*file);
        let size = size_at(sizes, *file);
        lower(bytes, maker, size);
    }
}

/// Bytes at a rate, in seconds, rounded up.
fn seconds_for(bytes: u128, rate: u64) -> u64
    requires bytes { bytes < 2 ^ 60 }
    requires rate { 0 < rate }
    requires few { rate ≤ 2 ^ 40 }
    ensures { result ≡ seconds_for bytes rate }
{
    ((bytes + (rate as u128 - 1)) / rate as u128) as u64
}

fn moves_from(
    alloc: Global,
    bytes: &[u128],
    parents: &[JobId],
    rate: u64,
) -> Result<Vec<u64>, Memory>
    requires parents { All (λ (p : JobId). p.0 < length bytes.now) parents.now }
    requires small { (a : ℕ) → bytes_at bytes.now a < 2 ^ 60 }
    requires rate { 0 < rate }
    requires few { rate ≤ 2 ^ 40 }
    ensures { IfOk result (λ v. v.items
        ≡ map (λ (p : JobId). seconds_for (bytes_at bytes.now p.0) rate) parents.now) }
{
    let mut moves = Vec::with_capacity(alloc, parents.len())?;
    for parent in parents {
        moves.push(seconds_for(bytes[parent.0 as usize], rate))?;
    }
    Ok(moves)
}

/// The moves to a job from its parents. The bytes are all 0, before and after.
fn moves_to(
    alloc: Global,
    bytes: &mut [u128],
    graph: &Graph,
    sizes: &[Option<u64>],
    rate: u64,
    job: JobId,
    files: &[FileId],
) -> Result<Vec<u64>, Memory>
    requires job { job.0 < length graph.now.parents }
    requires files { AreMade graph.now.producers (length bytes.old) files.now }
    requires none { (a : ℕ) → bytes_at bytes.old a ≡ 0 }
    requires few { length files.now ≤ 50000 }
    requires parents { All (λ (p : JobId). p.0 < length bytes.old)
        (jobs_at graph.now.parents job.0) }
    requires small { (a : ℕ) → carried graph.now.producers sizes.now a files.now < 2 ^ 60 }
    requires rate { 0 < rate }
    requires slow { rate ≤ 2 ^ 40 }
    ensures moves { IfOk result (λ v. v.items ≡ moves_by graph.now sizes.now rate files.now job.0) }
    ensures none { OnOk result ((a : ℕ) → bytes_at bytes.new a ≡ 0) }
{
    load(bytes, graph, sizes, files);
    let moves = moves_from(alloc, bytes, graph.parents(job), rate)?;
    unload(bytes, graph, sizes, files);
    Ok(moves)
}

fn fill_moves(
    alloc: Global,
    bytes: &mut [u128],
    jobs: &[Job],
    graph: &Graph,
    sizes: &[Option<u64>],
    rate: u64,
) -> Result<Vec<Vec<u64>>, Memory>
    requires lists { AreLists graph.now jobs.now sizes.now }
    requires long { length bytes.old ≡ length jobs.now }
    requires none { (a : ℕ) → bytes_at bytes.old a ≡ 0 }
    requires rate { 0 < rate }
    requires slow { rate ≤ 2 ^ 40 }
    ensures { IfOk result
        (λ v. AreMoves graph.now jobs.now sizes.now rate (lists_of v.items) (length jobs.now)) }
{
    let mut all = Vec::new(alloc);
    for number in 0..jobs.len() {
        let job = &jobs[number];
        let files = job.inputs.as_slice();
        let moves = moves_to(
            alloc,
            bytes,
            graph,
            sizes,
            rate,
            JobId(number as u32),
            files,
        )?;
        all.push(moves)?;
    }
    Ok(all)
}

/// Beside each job's parents the seconds in which what it reads of them is moved.
pub fn all_moves(
    alloc: Global,
    jobs: &[Job],
    graph: &Graph,
    sizes: &[Option<u64>],
    rate: u64,
) -> Result<Vec<Vec<u64>>, Memory>
    requires lists { AreLists graph.now jobs.now sizes.now }
    requires rate { 0 < rate }
    requires slow { rate ≤ 2 ^ 40 }
    ensures { IfOk result
        (λ v. AreMoves graph.now jobs.now sizes.now rate (lists_of v.items) (length jobs.now)) }
{
    let mut bytes = vec![in alloc; 0; jobs.len()]?;
    let moves = fill_moves(alloc, &mut bytes, jobs, graph, sizes, rate)?;
    Ok(moves)
}
