//! Where the bytes of the files that no job makes come from.

ghost use Rattle.std.specs.Prelude.{◌≡◌, ◌<◌, length, IfOk};
ghost use Rattle.workflow_core.specs.code.WellFormed.{IsWellFormed};
ghost use Rattle.dependency_graph.specs.Graph.{IsGraphOf};
ghost use Rattle.evaluation.specs.Fault.{UnlessMemory, items_of};
ghost use Rattle.evaluation.specs.Sources.{first_place, registered, source_if_base, source_of, sources_of};

use crate::fault::EvaluationFault;
use dependency_graph::Graph;
use outside::{FileId, Memory, Text};
use replica_catalog::{Replica, ReplicaCatalog, Replicas};
use std::alloc::Global;
use workflow_core::Workflow;

/// The first place of a file that is registered, and the SHA-256 that is registered for it.
#[derive(Drop)]
pub struct Source {
    pub lfn: Text,
    pub pfn: Text,
    pub checksum: Option<[u8; 32]>,
}

/// The first place of a file's entry.
fn first_place(alloc: Global, lfn: &Text, entry: &Replica) -> Result<Option<Source>, Memory>
    ensures { IfOk result (λ s. s ≡ first_place lfn.now entry.now.pfns entry.now.checksum) }
{
    match entry.pfns.as_slice() {
        [] => Ok(None),
        [first, ..] => Ok(Some(Source {
            lfn: lfn.copied(alloc)?,
            pfn: first.pfn.copied(alloc)?,
            checksum: entry.checksum,
        })),
    }
}

fn source_of(alloc: Global, replicas: &Replicas<'_>, lfn: &Text) -> Result<Option<Source>, Memory>
    ensures { IfOk result (λ s. s ≡ source_of replicas.now lfn.now) }
{
    match replicas.entry_of(lfn) {
        Some(entry) => first_place(alloc, lfn, entry),
        None => Ok(None),
    }
}

/// The source of a file that no job makes.
fn registered(
    alloc: Global,
    replicas: &Replicas<'_>,
    lfn: &Text,
) -> Result<Option<Source>, EvaluationFault>
    ensures { UnlessMemory result (result ≡ registered lfn.now (source_of replicas.now lfn.now)) }
{
    match source_of(alloc, replicas, lfn)? {
        Some(source) => Ok(Some(source)),
        None => Err(EvaluationFault::NoReplica(lfn.copied(alloc)?)),
    }
}

/// The source of a file, if no job makes it.
fn source_if_base(
    alloc: Global,
    workflow: &Workflow,
    graph: &Graph,
    replicas: &Replicas<'_>,
    file: FileId,
    lfn: &Text,
) -> Result<Option<Source>, EvaluationFault>
    requires graph { IsGraphOf workflow.now graph.now }
    requires below { file.0 < length workflow.now.files }
    ensures { UnlessMemory result
        (result ≡ source_if_base workflow.now replicas.now file.0 lfn.now) }
{
    if graph.is_made(file) {
        return Ok(None);
    }
    registered(alloc, replicas, lfn)
}

/// The source of each file that no job makes, in these entries, up to the first file without one.
#[tactic(auto, unfolding(crate::specs::Sources::sources_of))]
fn registered_sources(
    alloc: Global,
    workflow: &Workflow,
    graph: &Graph,
    replicas: &Replicas<'_>,
) -> Result<Vec<Option<Source>>, EvaluationFault>
    requires well_formed { IsWellFormed workflow.now }
    requires graph { IsGraphOf workflow.now graph.now }
    ensures { UnlessMemory result (items_of result ≡ sources_of workflow.now replicas.now) }
{
    let mut sources = Vec::new(alloc);
    for (number, lfn) in workflow.files.as_slice().iter().enumerate() {
        let file = FileId(number as u32);
        match source_if_base(alloc, workflow, graph, replicas, file, lfn) {
            Ok(source) => sources.push(source)?,
            Err(fault) => return Err(fault),
        }
    }
    Ok(sources)
}

/// The source of each file that no job makes, by number. The first file without one is refused.
pub(crate) fn sources_of(
    alloc: Global,
    workflow: &Workflow,
    graph: &Graph,
    catalog: &ReplicaCatalog,
) -> Result<Vec<Option<Source>>, EvaluationFault>
    requires well_formed { IsWellFormed workflow.now }
    requires graph { IsGraphOf workflow.now graph.now }
    ensures { UnlessMemory result (items_of result ≡ sources_of workflow.now catalog.now.entries) }
{
    let replicas = Replicas::new(alloc, catalog)?;
    let sources = registered_sources(alloc, workflow, graph, &replicas);
    drop(replicas);
    sources
}
