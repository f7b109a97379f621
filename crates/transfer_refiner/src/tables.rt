//! What is looked up of a draft: parts, sites and sizes by number.

ghost use Rattle.std.specs.Prelude.{◌≡◌, ◌<◌, ℕ, length, option_map, slice_index_or, IfOk};
ghost use Rattle.std.specs.Option.{option_copied};
ghost use Rattle.values.specs.declared.numbers.SiteId.{SiteId};
ghost use Rattle.dependency_graph.specs.Graph.{IsGraphOf};
ghost use Rattle.transfer_refiner.specs.code.Conditions.{IsDraft};
ghost use Rattle.transfer_refiner.specs.Draft.{declared_of, replica_in_draft, home, draft_file_name};
ghost use Rattle.transfer_refiner.specs.code.Listing.{first_site_of};
ghost use Rattle.transfer_refiner.specs.code.Tables.{AreTables};
ghost use Rattle.transfer_refiner.specs.code.View.{draft_of};

use crate::edges::{held, stood};
use crate::jobs::{part, site_of};
use crate::marked::requested_files;
use crate::rows::before;
use crate::view::View;
use digraph::Digraph;
use plan_request::declared_sizes;
use replica_catalog::Replica;
use std::alloc::Global;
use values::{FileId, Memory, SiteId, Text};

#[derive(Drop)]
pub struct Tables {
    /// From each part to its jobs.
    pub held: Digraph,
    /// From each site to the files that stand there.
    pub stood: Digraph,
    /// The files to be delivered.
    pub requested: Vec<u32>,
    /// The declared size of each file, in bytes.
    pub sizes: Vec<Option<u64>>,
}

pub fn tables_of(alloc: Global, view: &View<'_>) -> Result<Tables, Memory>
    requires draft { IsDraft (draft_of view.now) }
    ensures { IfOk result (λ t. AreTables (draft_of view.now) t) }
{
    let held = held(alloc, view)?;
    let stood = stood(alloc, view)?;
    let requested = requested_files(alloc, view.workflow)?;
    let names = view.workflow.files.as_slice();
    let sizes = declared_sizes(alloc, view.request, names, view.workflow.sizes.as_slice())?;
    Ok(Tables {
        held,
        stood,
        requested,
        sizes,
    })
}

fn first_site(view: &View<'_>, parts: &[u32]) -> Option<SiteId>
    ensures { option_map (λ (s : SiteId). s.0) result ≡ first_site_of (draft_of view.now) parts.now }
{
    match parts {
        [] => None,
        [first, ..] => Some(site_of(view, part(view, *first))),
    }
}

/// The site at which a part makes the file.
pub fn home(view: &View<'_>, tables: &Tables, file: FileId) -> Option<SiteId>
    requires draft { IsDraft (draft_of view.now) }
    requires graph { IsGraphOf view.now.workflow.now view.now.graph.now }
    requires tables { AreTables (draft_of view.now) tables.now }
    requires in_range { file.0 < length view.now.workflow.now.files }
    ensures { option_map (λ (s : SiteId). s.0) result ≡ home (draft_of view.now) file.0 }
{
    match view.graph.producer(file) {
        Some(job) => first_site(view, before(&tables.held, job.0)),
        None => None,
    }
}

/// The entry of a file in the replica catalogue.
pub fn entry_of<'b>(view: &'b View<'_>, file: FileId) -> Option<&'b Replica>
    ensures { option_copied result ≡ replica_in_draft (draft_of view.now) file.0 }
{
    match view.workflow.files.as_slice().get(file.0 as usize) {
        Some(name) => view.replicas.entry_of(name),
        None => None,
    }
}

/// The declared size of a file, in bytes.
#[tactic(auto, using(crate::proofs::LookupLemmas::list_at, crate::proofs::LookupLemmas::list_none))]
pub fn declared_of(tables: &Tables, file: FileId) -> Option<u64>
    ensures { result ≡ slice_index_or tables.now.sizes.items file.0 None }
{
    match tables.sizes.get(file.0 as usize) {
        Some(size) => *size,
        None => None,
    }
}

#[tactic(auto, using(crate::proofs::LookupLemmas::list_at, crate::proofs::LookupLemmas::list_none))]
pub fn name_of(alloc: Global, view: &View<'_>, file: FileId) -> Result<Text, Memory>
    ensures { IfOk result (λ name. name ≡ draft_file_name (draft_of view.now) file.0) }
{
    match view.workflow.files.as_slice().get(file.0 as usize) {
        Some(found) => found.copied(alloc),
        None => Text::copy_of(alloc, ""),
    }
}
