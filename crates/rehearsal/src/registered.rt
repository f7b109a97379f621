//! What the catalogue of a workload registers.

ghost use Rattle.std.specs.Prelude.{◌≡◌, ◌<◌, ℕ, [], length, slice_index_or, true, OnOk};
ghost use Rattle.workflow_core.specs.code.WellFormed.{IsWellFormed};
ghost use Rattle.dependency_graph.specs.Graph.{IsGraphOf};
ghost use Rattle.rehearsal.specs.Registered.{RegistersImages, are_at, is_at, is_free};

use dependency_graph::Graph;
use outside::{Blob, FileId, Memory, Text};
use planner::Surveyed;
use replica_catalog::{Replica, Replicas};
use std::alloc::Global;
use workflow_core::Workflow;

/// Whether an entry has this pfn alone, and no checksum.
fn is_at(entry: &Replica, pfn: &Text) -> bool
    ensures { result ≡ is_at pfn.now entry.now }
{
    match entry.pfns.as_slice() {
        [] => false,
        [only] => only.pfn.as_str() == pfn.as_str() && entry.checksum.is_none(),
        [_, _, ..] => false,
    }
}

/// Whether each entry is at the pfn that stands at its place.
fn are_at(images: &[(Text, Blob)], entries: &[Replica]) -> bool
    ensures { result ≡ are_at images.now entries.now }
{
    if images.len() < entries.len() {
        return false;
    }
    for (place, entry) in entries.iter().enumerate() {
        if !is_at(entry, &images[place].0) {
            return false;
        }
    }
    true
}

/// Whether a file has no entry, if a job makes it.
fn is_free(
    workflow: &Workflow,
    graph: &Graph,
    replicas: &Replicas<'_>,
    file: FileId,
    lfn: &Text,
) -> bool
    requires graph { IsGraphOf workflow.now graph.now }
    requires below { file.0 < length workflow.now.files }
    ensures { result ≡ is_free workflow.now replicas.now file.0 lfn.now }
{
    match replicas.entry_of(lfn) {
        Some(_) => !graph.is_made(file),
        None => true,
    }
}

/// Whether no file that a job makes has an entry.
fn are_free(workflow: &Workflow, graph: &Graph, replicas: &Replicas<'_>) -> bool
    requires well_formed { IsWellFormed workflow.now }
    requires graph { IsGraphOf workflow.now graph.now }
    ensures { result ≡ true → (f : ℕ) → f < length workflow.now.files
        → is_free workflow.now replicas.now f (slice_index_or workflow.now.files f []) ≡ true }
{
    let files = workflow.files.as_slice();
    for (number, lfn) in files.iter().enumerate() {
        let file = FileId(number as u32);
        if !is_free(workflow, graph, replicas, file, lfn) {
            return false;
        }
    }
    true
}

/// Looks whether the catalogue registers images alone, as it does for every workload.
pub(crate) fn check_registered(
    alloc: Global,
    surveyed: &Surveyed,
    images: &[(Text, Blob)],
) -> Result<(), Memory>
    ensures { OnOk result (RegistersImages surveyed.now.survey.workflow
        surveyed.now.survey.replicas.entries images.now) }
{
    let survey = &surveyed.survey;
    let replicas = Replicas::new(alloc, &survey.replicas)?;
    let entries = survey.replicas.entries.as_slice();
    if !are_at(images, entries) {
        return Err(Memory);
    }
    if !are_free(&survey.workflow, &survey.graph, &replicas) {
        return Err(Memory);
    }
    Ok(())
}
