//! Where a file comes from.

ghost use Rattle.std.specs.Prelude.{◌≡◌, ◌<◌, length, option_map, IfOk, slice_get};
ghost use Rattle.std.specs.Option.{option_copied};
ghost use Rattle.values.specs.declared.numbers.SiteId.{SiteId};
ghost use Rattle.dependency_graph.specs.Graph.{IsGraphOf};
ghost use Rattle.plan_core.specs.declared.plan.Target.TheVariants.{Site as Into, Delivery};
ghost use Rattle.transfer_refiner.specs.code.Conditions.{IsDraft};
ghost use Rattle.transfer_refiner.specs.Draft.{chosen, first_pfn, first_on, pfns_of};
ghost use Rattle.transfer_refiner.specs.code.Tables.{AreTables};
ghost use Rattle.transfer_refiner.specs.Tasks.{source, transfer, delivery};
ghost use Rattle.transfer_refiner.specs.code.View.{draft_of};

use crate::tables::{Tables, entry_of, home};
use crate::view::View;
use plan_core::{Source, Target, TaskKind};
use replica_catalog::Pfn;
use std::alloc::Global;
use values::{FileId, Memory, SiteId, Text};

/// The registered pfns of a file.
fn pfns_of<'b>(view: &'b View<'_>, file: FileId) -> &'b [Pfn]
    ensures { result.now ≡ pfns_of (draft_of view.now) file.0 }
{
    match entry_of(view, file) {
        Some(entry) => entry.pfns.as_slice(),
        None => &[],
    }
}

/// The first pfn.
fn first_of(alloc: Global, pfns: &[Pfn]) -> Result<Text, Memory>
    ensures { IfOk result (λ x. x ≡ first_pfn pfns.now) }
{
    match pfns {
        [] => Text::copy_of(alloc, ""),
        [first, ..] => first.pfn.copied(alloc),
    }
}

/// The first pfn on a site of this name, else the first.
fn first_on(alloc: Global, name: &Text, pfns: &[Pfn]) -> Result<Text, Memory>
    ensures { IfOk result (λ x. x ≡ first_on name.now pfns.now (first_pfn pfns.now)) }
{
    for i in 0..pfns.len() {
        if pfns[i].site == *name {
            return pfns[i].pfn.copied(alloc);
        }
    }
    first_of(alloc, pfns)
}

/// The pfn that is chosen for a site.
fn chosen(alloc: Global, view: &View<'_>, file: FileId, site: SiteId) -> Result<Text, Memory>
    ensures { IfOk result (λ x. x ≡ chosen (draft_of view.now) file.0 site.0) }
{
    match view.request.execute.as_slice().get(site.0 as usize) {
        Some(found) => first_on(alloc, &found.site, pfns_of(view, file)),
        None => {
            let nameless = Text::copy_of(alloc, "")?;
            first_on(alloc, &nameless, pfns_of(view, file))
        }
    }
}

/// From the site, else from the pfn.
fn source(home: Option<SiteId>, pfn: Text) -> Source
    ensures { result ≡ source (option_map (λ (s : SiteId). s.0) home) pfn }
{
    match home {
        Some(site) => Source::Site(site),
        None => Source::Pfn(pfn),
    }
}

/// The Transfer of a file to a site.
pub fn transfer(
    alloc: Global,
    view: &View<'_>,
    tables: &Tables,
    file: FileId,
    site: SiteId,
) -> Result<TaskKind, Memory>
    requires draft { IsDraft (draft_of view.now) }
    requires graph { IsGraphOf view.now.workflow.now view.now.graph.now }
    requires tables { AreTables (draft_of view.now) tables.now }
    requires in_range { file.0 < length view.now.workflow.now.files }
    ensures { IfOk result (λ k. k ≡ transfer (draft_of view.now) (file.0, site.0)) }
{
    let pfn = chosen(alloc, view, file, site)?;
    let from = source(home(view, tables, file), pfn);
    Ok(TaskKind::Transfer {
        file,
        from,
        to: Target::Site(site),
    })
}

/// The delivery of a file.
pub fn delivery(
    alloc: Global,
    view: &View<'_>,
    tables: &Tables,
    file: FileId,
) -> Result<TaskKind, Memory>
    requires draft { IsDraft (draft_of view.now) }
    requires graph { IsGraphOf view.now.workflow.now view.now.graph.now }
    requires tables { AreTables (draft_of view.now) tables.now }
    requires in_range { file.0 < length view.now.workflow.now.files }
    ensures { IfOk result (λ k. k ≡ delivery (draft_of view.now) file.0) }
{
    let pfn = first_of(alloc, pfns_of(view, file))?;
    let from = source(home(view, tables, file), pfn);
    Ok(TaskKind::Transfer {
        file,
        from,
        to: Target::Delivery,
    })
}
