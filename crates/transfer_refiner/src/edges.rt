//! Which part holds each job, at which sites each file stands, and which parts follow each other.

ghost use Rattle.std.specs.Prelude.{◌≡◌, ◌<◌, ◌^◌, ◌++◌, ◌&&◌, ◌||◌, ◌==◌, not, ℕ, length, map, IfOk, OnOk};
ghost use Rattle.std.specs.List.{list_any};
ghost use Rattle.workflow_core.specs.declared.workflow.Output.{Output};
ghost use Rattle.workflow_core.specs.WellFormed.{parent_of, child_of};
ghost use Rattle.digraph.specs.code.Digraph.{count, edge};
ghost use Rattle.plan_core.specs.Numbers.{has};
ghost use Rattle.plan_core.specs.Words.{file_numbers, job_numbers};
ghost use Rattle.transfer_refiner.specs.code.Conditions.{IsDraft};
ghost use Rattle.transfer_refiner.specs.Draft.{stands};
ghost use Rattle.transfer_refiner.specs.code.Edges.{fan, job_edges, part_edges, stood_edges, held_edges, fan_apart, all_apart};
ghost use Rattle.transfer_refiner.specs.Tasks.{part_of, comes_after};
ghost use Rattle.transfer_refiner.specs.code.View.{draft_of};

use crate::jobs::{inputs, outputs, part, site_of};
use crate::rows::{before, larger};
use crate::view::View;
use digraph::Digraph;
use std::alloc::Global;
use values::{FileId, JobId, Memory};
use workflow_core::{Output, Workflow};

fn push_jobs(edges: &mut Vec<(u32, u32)>, from: u32, jobs: &[JobId]) -> Result<(), Memory>
    ensures { OnOk result (edges.new.items ≡ edges.old.items ++ fan from (job_numbers jobs.now)) }
{
    for job in jobs {
        edges.push((from, job.0))?;
    }
    Ok(())
}

fn push_files(edges: &mut Vec<(u32, u32)>, from: u32, files: &[FileId]) -> Result<(), Memory>
    ensures { OnOk result (edges.new.items ≡ edges.old.items ++ fan from (file_numbers files.now)) }
{
    for file in files {
        edges.push((from, file.0))?;
    }
    Ok(())
}

fn push_outputs(edges: &mut Vec<(u32, u32)>, from: u32, outputs: &[Output]) -> Result<(), Memory>
    ensures { OnOk result (edges.new.items ≡ edges.old.items
        ++ fan from (map (λ (o : Output). o.file.0) outputs.now)) }
{
    for output in outputs {
        edges.push((from, output.file.0))?;
    }
    Ok(())
}

fn push_job(
    edges: &mut Vec<(u32, u32)>,
    workflow: &Workflow,
    site: u32,
    job: JobId,
) -> Result<(), Memory>
    ensures { OnOk result (edges.new.items ≡ edges.old.items ++ job_edges workflow.now site job) }
{
    push_files(edges, site, inputs(workflow, job))?;
    push_outputs(edges, site, outputs(workflow, job))
}

fn push_part(edges: &mut Vec<(u32, u32)>, view: &View<'_>, jobs: &[JobId]) -> Result<(), Memory>
    ensures { OnOk result (edges.new.items ≡ edges.old.items ++ part_edges (draft_of view.now) jobs.now) }
{
    let site = site_of(view, jobs).0;
    for job in jobs {
        push_job(edges, view.workflow, site, *job)?;
    }
    Ok(())
}

#[tactic(auto, using(crate::proofs::EdgesLemmas::held_none))]
fn held_edges(alloc: Global, view: &View<'_>) -> Result<Vec<(u32, u32)>, Memory>
    requires few { length view.now.parts.now < 2 ^ 32 }
    ensures { IfOk result (λ v. v.items ≡ held_edges (draft_of view.now) (length view.now.parts.now)) }
{
    let mut edges = Vec::new(alloc);
    for number in 0..view.parts.len() {
        push_jobs(&mut edges, number as u32, part(view, number as u32))?;
    }
    Ok(edges)
}

fn stood_edges(alloc: Global, view: &View<'_>) -> Result<Vec<(u32, u32)>, Memory>
    ensures { IfOk result (λ v. v.items ≡ stood_edges (draft_of view.now)) }
{
    let mut edges = Vec::new(alloc);
    for jobs in view.parts {
        push_part(&mut edges, view, jobs.as_slice())?;
    }
    Ok(edges)
}

/// An edge leads from each part to each of its jobs.
pub fn held(alloc: Global, view: &View<'_>) -> Result<Digraph, Memory>
    requires draft { IsDraft (draft_of view.now) }
    ensures { IfOk result (λ g. (c j : ℕ) → edge g c j ≡ has (part_of (draft_of view.now) c) j) }
{
    let edges = held_edges(alloc, view)?;
    let graph = Digraph::from_edges(alloc, view.workflow.jobs.as_slice().len(), &edges)?;
    Ok(graph)
}

/// An edge leads from each site to each file that stands there.
pub fn stood(alloc: Global, view: &View<'_>) -> Result<Digraph, Memory>
    requires draft { IsDraft (draft_of view.now) }
    ensures { IfOk result (λ g. (s f : ℕ) → edge g s f ≡ stands (draft_of view.now) s f) }
{
    let edges = stood_edges(alloc, view)?;
    let files = view.workflow.files.as_slice().len();
    let sites = view.request.execute.as_slice().len();
    let nodes = larger(files, sites);
    let graph = Digraph::from_edges(alloc, nodes, &edges)?;
    Ok(graph)
}

fn push_apart(edges: &mut Vec<(u32, u32)>, from: u32, to: &[u32]) -> Result<(), Memory>
    ensures { OnOk result (edges.new.items ≡ edges.old.items ++ fan_apart to.now from) }
{
    for number in to {
        if *number != from {
            edges.push((from, *number))?;
        }
    }
    Ok(())
}

fn push_all_apart(edges: &mut Vec<(u32, u32)>, from: &[u32], to: &[u32]) -> Result<(), Memory>
    ensures { OnOk result (edges.new.items ≡ edges.old.items ++ all_apart from.now to.now) }
{
    for number in from {
        push_apart(edges, *number, to)?;
    }
    Ok(())
}

/// Adds the edges of one stated pair.
fn push_stated(
    edges: &mut Vec<(u32, u32)>,
    view: &View<'_>,
    held: &Digraph,
    pair: &(JobId, JobId),
) -> Result<(), Memory>
    requires held { (c j : ℕ) → edge held.now c j ≡ has (part_of (draft_of view.now) c) j }
    ensures { OnOk result ((u t : ℕ)
        → list_any (λ (p : ℕ × ℕ). p.0 == u && p.1 == t) edges.new.items
        ≡ (list_any (λ (p : ℕ × ℕ). p.0 == u && p.1 == t) edges.old.items
        || (not (t == u) && (has (part_of (draft_of view.now) u) (parent_of pair.now)
        && has (part_of (draft_of view.now) t) (child_of pair.now))))) }
{
    let firsts = before(held, pair.0.0);
    let seconds = before(held, pair.1.0);
    push_all_apart(edges, firsts, seconds)?;
    Ok(())
}

fn stated_edges(alloc: Global, view: &View<'_>, held: &Digraph) -> Result<Vec<(u32, u32)>, Memory>
    requires held { (c j : ℕ) → edge held.now c j ≡ has (part_of (draft_of view.now) c) j }
    ensures { IfOk result (λ v. (u t : ℕ)
        → list_any (λ (p : ℕ × ℕ). p.0 == u && p.1 == t) v.items ≡ comes_after (draft_of view.now) t u) }
{
    let mut edges = Vec::new(alloc);
    for pair in view.workflow.pairs.as_slice() {
        push_stated(&mut edges, view, held, pair)?;
    }
    Ok(edges)
}

/// An edge leads from a part to another one where a stated pair of their jobs says so.
pub fn stated(alloc: Global, view: &View<'_>, held: &Digraph) -> Result<Digraph, Memory>
    requires draft { IsDraft (draft_of view.now) }
    requires held { (c j : ℕ) → edge held.now c j ≡ has (part_of (draft_of view.now) c) j }
    ensures { IfOk result (λ g. (u t : ℕ) → edge g u t ≡ comes_after (draft_of view.now) t u) }
{
    let edges = stated_edges(alloc, view, held)?;
    let graph = Digraph::from_edges(alloc, view.parts.len(), &edges)?;
    Ok(graph)
}
