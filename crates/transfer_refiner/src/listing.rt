//! The pairs of a plan, what has to move, and the kinds of its tasks, in order.

ghost use Rattle.std.specs.Prelude.{◌≡◌, ◌≤◌, ◌<◌, ◌++◌, ◌∷◌, [], ℕ, List, true, cond, map, length, option_map, IfOk, OnOk, All};
ghost use Rattle.values.specs.declared.numbers.SiteId.{SiteId};
ghost use Rattle.workflow_core.specs.Requested.{is_requested};
ghost use Rattle.dependency_graph.specs.Graph.{IsGraphOf};
ghost use Rattle.plan_core.specs.Numbers.{below, has};
ghost use Rattle.transfer_refiner.specs.code.Conditions.{IsDraft};
ghost use Rattle.transfer_refiner.specs.Draft.{moves, stands};
ghost use Rattle.transfer_refiner.specs.code.Listing.{is_at, moved_from};
ghost use Rattle.transfer_refiner.specs.code.Tables.{AreTables};
ghost use Rattle.transfer_refiner.specs.Tasks.{count_files, count_execution_sites, delivery, grid, kinds_of, pair_of, pairs_of, run, transfer};
ghost use Rattle.transfer_refiner.specs.code.View.{draft_of};

use crate::jobs::site_of;
use crate::rows::{after, before};
use crate::sources::{delivery, transfer};
use crate::tables::{Tables, home};
use crate::view::View;
use plan_core::{Pair, TaskKind, copied};
use std::alloc::Global;
use values::{FileId, Items, Memory, SiteId};

fn push_pairs(pairs: &mut Vec<Pair>, site: SiteId, files: &[u32]) -> Result<(), Memory>
    ensures { OnOk result (pairs.new.items ≡ pairs.old.items
        ++ map (λ (f : ℕ). pair_of (site.0, f)) files.now) }
{
    for file in files {
        pairs.push(Pair {
            site,
            file: FileId(*file),
        })?;
    }
    Ok(())
}

/// The files that stand at a site.
fn files_at<'b>(view: &View<'_>, tables: &'b Tables, site: u32) -> &'b [u32]
    requires draft { IsDraft (draft_of view.now) }
    requires tables { AreTables (draft_of view.now) tables.now }
    ensures { result.now ≡ below (count_files (draft_of view.now)) (stands (draft_of view.now) site) }
{
    after(&tables.stood, site)
}

/// Each site and file that stands there.
#[tactic(auto, unfolding(crate::specs::Tasks::pairs_of), using(crate::proofs::GridLemmas::first_pairs, crate::proofs::GridLemmas::more_pairs))]
pub fn pairs_of(alloc: Global, view: &View<'_>, tables: &Tables) -> Result<Items<Pair>, Memory>
    requires draft { IsDraft (draft_of view.now) }
    requires tables { AreTables (draft_of view.now) tables.now }
    ensures { IfOk result (λ pairs. pairs ≡ pairs_of (draft_of view.now)) }
{
    let mut pairs = Vec::new(alloc);
    for site in 0..view.request.execute.as_slice().len() {
        push_pairs(
            &mut pairs,
            SiteId(site as u32),
            files_at(view, tables, site as u32),
        )?;
    }
    Ok(Items::new(pairs))
}

fn is_at(home: Option<SiteId>, site: u32) -> bool
    ensures { result ≡ is_at (option_map (λ (s : SiteId). s.0) home) site }
{
    match home {
        Some(found) => found.0 == site,
        None => false,
    }
}

/// Adds the sites, but the home, to which the file moves.
fn push_moved(
    moved: &mut Vec<(u32, u32)>,
    file: u32,
    home: Option<SiteId>,
    sites: &[u32],
) -> Result<(), Memory>
    ensures { OnOk result (moved.new.items ≡ moved.old.items
        ++ moved_from (option_map (λ (s : SiteId). s.0) home) file sites.now) }
{
    for site in sites {
        if !is_at(home, *site) {
            moved.push((file, *site))?;
        }
    }
    Ok(())
}

fn push_moves(
    moved: &mut Vec<(u32, u32)>,
    view: &View<'_>,
    tables: &Tables,
    file: u32,
) -> Result<(), Memory>
    requires draft { IsDraft (draft_of view.now) }
    requires graph { IsGraphOf view.now.workflow.now view.now.graph.now }
    requires tables { AreTables (draft_of view.now) tables.now }
    requires in_range { file < length view.now.workflow.now.files }
    ensures { OnOk result (moved.new.items ≡ moved.old.items
        ++ map (λ (s : ℕ). (file, s)) (below (count_execution_sites (draft_of view.now))
        (moves (draft_of view.now) file))) }
{
    let home = home(view, tables, FileId(file));
    let sites = before(&tables.stood, file);
    push_moved(moved, file, home, sites)?;
    Ok(())
}

/// Each file and site to which it has to come.
#[tactic(auto, using(crate::proofs::GridLemmas::grid_none))]
pub fn moved(alloc: Global, view: &View<'_>, tables: &Tables) -> Result<Vec<(u32, u32)>, Memory>
    requires draft { IsDraft (draft_of view.now) }
    requires graph { IsGraphOf view.now.workflow.now view.now.graph.now }
    requires tables { AreTables (draft_of view.now) tables.now }
    ensures { IfOk result (λ v. v.items ≡ grid (count_files (draft_of view.now))
        (count_execution_sites (draft_of view.now)) (moves (draft_of view.now))) }
{
    let mut moved = Vec::new(alloc);
    for file in 0..view.workflow.files.as_slice().len() {
        push_moves(&mut moved, view, tables, file as u32)?;
    }
    Ok(moved)
}

fn push_runs(alloc: Global, kinds: &mut Vec<TaskKind>, view: &View<'_>) -> Result<(), Memory>
    ensures { OnOk result (kinds.new.items ≡ kinds.old.items
        ++ map (run (draft_of view.now)) view.now.parts.now) }
{
    for part in view.parts {
        let jobs = copied(alloc, part.as_slice())?;
        let site = site_of(view, part.as_slice());
        kinds.push(TaskKind::Run { site, jobs })?;
    }
    Ok(())
}

fn push_transfers(
    alloc: Global,
    kinds: &mut Vec<TaskKind>,
    view: &View<'_>,
    tables: &Tables,
    moved: &[(u32, u32)],
) -> Result<(), Memory>
    requires draft { IsDraft (draft_of view.now) }
    requires graph { IsGraphOf view.now.workflow.now view.now.graph.now }
    requires tables { AreTables (draft_of view.now) tables.now }
    requires in_range { All (λ (x : ℕ × ℕ). x.0 < length view.now.workflow.now.files) moved.now }
    ensures { OnOk result (kinds.new.items ≡ kinds.old.items
        ++ map (transfer (draft_of view.now)) moved.now) }
{
    for place in moved {
        kinds.push(transfer(alloc, view, tables, FileId(place.0), SiteId(place.1))?)?;
    }
    Ok(())
}

fn push_deliveries(
    alloc: Global,
    kinds: &mut Vec<TaskKind>,
    view: &View<'_>,
    tables: &Tables,
) -> Result<(), Memory>
    requires draft { IsDraft (draft_of view.now) }
    requires graph { IsGraphOf view.now.workflow.now view.now.graph.now }
    requires tables { AreTables (draft_of view.now) tables.now }
    requires in_range { All (λ f. f < length view.now.workflow.now.files) tables.now.requested.items }
    ensures { OnOk result (kinds.new.items ≡ kinds.old.items
        ++ map (delivery (draft_of view.now)) tables.now.requested.items) }
{
    for file in &tables.requested {
        kinds.push(delivery(alloc, view, tables, FileId(*file))?)?;
    }
    Ok(())
}

/// The kinds of all tasks, in order.
#[tactic(auto, unfolding(crate::specs::Tasks::kinds_of))]
pub fn kinds_of(
    alloc: Global,
    view: &View<'_>,
    tables: &Tables,
    moved: &[(u32, u32)],
) -> Result<Vec<TaskKind>, Memory>
    requires draft { IsDraft (draft_of view.now) }
    requires graph { IsGraphOf view.now.workflow.now view.now.graph.now }
    requires tables { AreTables (draft_of view.now) tables.now }
    requires moved { moved.now ≡ grid (count_files (draft_of view.now)) (count_execution_sites (draft_of view.now))
        (moves (draft_of view.now)) }
    ensures { IfOk result (λ kinds. kinds.items ≡ kinds_of (draft_of view.now)) }
{
    let mut kinds = Vec::new(alloc);
    push_runs(alloc, &mut kinds, view)?;
    push_transfers(alloc, &mut kinds, view, tables, moved)?;
    push_deliveries(alloc, &mut kinds, view, tables)?;
    Ok(kinds)
}
