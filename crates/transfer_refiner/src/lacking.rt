//! The first fault of a draft.

ghost use Rattle.std.specs.Prelude.{◌≡◌, ◌<◌, ◌&&◌, ◌||◌, not, length, IfOk, option_map};
ghost use Rattle.values.specs.declared.numbers.FileId.{FileId};
ghost use Rattle.dependency_graph.specs.Graph.{IsGraphOf};
ghost use Rattle.workflow_core.specs.Requested.{is_requested};
ghost use Rattle.replica_catalog.specs.Lookup.{is_registered};
ghost use Rattle.plan_core.specs.Numbers.{least};
ghost use Rattle.transfer_refiner.specs.declared.fault.RefineFault.TheVariants.{NoReplica, NoSize, TooMany};
ghost use Rattle.transfer_refiner.specs.code.Conditions.{IsDraft};
ghost use Rattle.transfer_refiner.specs.code.Draft.{is_empty};
ghost use Rattle.transfer_refiner.specs.Draft.{draft_file_name};
ghost use Rattle.transfer_refiner.specs.code.Tables.{AreTables};
ghost use Rattle.transfer_refiner.specs.code.Tasks.{count_all, is_made, used, lacks_replica, lacks_size, too_many, first_fault};
ghost use Rattle.transfer_refiner.specs.Tasks.{count_files};
ghost use Rattle.transfer_refiner.specs.code.View.{draft_of};

use crate::fault::RefineFault;
use crate::rows::before;
use crate::tables::{Tables, declared_of, home, name_of};
use crate::view::View;
use plan_core::is_among;
use std::alloc::Global;
use values::{FileId, Memory};

fn is_empty<T>(list: &[T]) -> bool
    ensures { result ≡ is_empty list.now }
{
    match list {
        [] => true,
        [_, ..] => false,
    }
}

/// Whether a kept job reads or makes the file.
fn is_there(view: &View<'_>, tables: &Tables, file: FileId) -> bool
    requires draft { IsDraft (draft_of view.now) }
    requires tables { AreTables (draft_of view.now) tables.now }
    ensures { result ≡ (used (draft_of view.now) file.0 || is_made (draft_of view.now) file.0) }
{
    let sites = before(&tables.stood, file.0);
    let none = is_empty(sites);
    !none
}

/// Whether the file is to be delivered.
fn is_asked(view: &View<'_>, tables: &Tables, file: FileId) -> bool
    requires tables { AreTables (draft_of view.now) tables.now }
    requires in_range { file.0 < length view.now.workflow.now.files }
    ensures { result ≡ is_requested view.now.workflow.now file.0 }
{
    let asked = is_among(&tables.requested, file.0);
    asked
}

/// Whether the file is registered.
fn is_registered(view: &View<'_>, file: FileId) -> bool
    requires in_range { file.0 < length view.now.workflow.now.files }
    ensures { result ≡ is_registered view.now.replicas (draft_file_name (draft_of view.now) file.0) }
{
    let names = view.workflow.files.as_slice();
    view.replicas.is_registered(&names[file.0 as usize])
}

fn lacks_pfn(there: bool, made: bool, registered: bool) -> bool
    ensures { result ≡ (there && (not made && not registered)) }
{
    there && !made && !registered
}

fn lacks_known(there: bool, asked: bool, known: bool) -> bool
    ensures { result ≡ ((there || asked) && not known) }
{
    (there || asked) && !known
}

/// Whether a kept job reads the file, no kept job makes it, and it isn't registered.
fn lacks_replica(view: &View<'_>, tables: &Tables, file: FileId) -> bool
    requires draft { IsDraft (draft_of view.now) }
    requires graph { IsGraphOf view.now.workflow.now view.now.graph.now }
    requires tables { AreTables (draft_of view.now) tables.now }
    requires in_range { file.0 < length view.now.workflow.now.files }
    ensures { result ≡ lacks_replica (draft_of view.now) file.0 }
{
    let there = is_there(view, tables, file);
    let home = home(view, tables, file);
    let registered = is_registered(view, file);
    lacks_pfn(there, home.is_some(), registered)
}

/// Whether a task moves or writes the file, and it has no declared size.
fn lacks_size(view: &View<'_>, tables: &Tables, file: FileId) -> bool
    requires draft { IsDraft (draft_of view.now) }
    requires tables { AreTables (draft_of view.now) tables.now }
    requires in_range { file.0 < length view.now.workflow.now.files }
    ensures { result ≡ lacks_size (draft_of view.now) file.0 }
{
    let there = is_there(view, tables, file);
    let asked = is_asked(view, tables, file);
    let size = declared_of(tables, file);
    lacks_known(there, asked, size.is_some())
}

/// The first file that lacks a replica.
#[tactic(auto, using(plan_core::proofs::NumbersLemmas::least_none, plan_core::proofs::NumbersLemmas::least_more, plan_core::proofs::NumbersLemmas::least_found))]
fn without_replica(view: &View<'_>, tables: &Tables) -> Option<FileId>
    requires draft { IsDraft (draft_of view.now) }
    requires graph { IsGraphOf view.now.workflow.now view.now.graph.now }
    requires tables { AreTables (draft_of view.now) tables.now }
    ensures { option_map (λ (f : FileId). f.0) result
        ≡ least (count_files (draft_of view.now)) (lacks_replica (draft_of view.now)) }
{
    for f in 0..view.workflow.files.as_slice().len() {
        if lacks_replica(view, tables, FileId(f as u32)) {
            return Some(FileId(f as u32));
        }
    }
    None
}

/// The first file that lacks a size.
#[tactic(auto, using(plan_core::proofs::NumbersLemmas::least_none, plan_core::proofs::NumbersLemmas::least_more, plan_core::proofs::NumbersLemmas::least_found))]
fn without_size(view: &View<'_>, tables: &Tables) -> Option<FileId>
    requires draft { IsDraft (draft_of view.now) }
    requires tables { AreTables (draft_of view.now) tables.now }
    ensures { option_map (λ (f : FileId). f.0) result
        ≡ least (count_files (draft_of view.now)) (lacks_size (draft_of view.now)) }
{
    for f in 0..view.workflow.files.as_slice().len() {
        if lacks_size(view, tables, FileId(f as u32)) {
            return Some(FileId(f as u32));
        }
    }
    None
}

fn replica_fault(
    alloc: Global,
    view: &View<'_>,
    tables: &Tables,
) -> Result<Option<RefineFault>, Memory>
    requires draft { IsDraft (draft_of view.now) }
    requires graph { IsGraphOf view.now.workflow.now view.now.graph.now }
    requires tables { AreTables (draft_of view.now) tables.now }
    ensures { IfOk result (λ o. o ≡ option_map (λ f. NoReplica (draft_file_name (draft_of view.now) f))
        (least (count_files (draft_of view.now)) (lacks_replica (draft_of view.now)))) }
{
    match without_replica(view, tables) {
        Some(file) => Ok(Some(RefineFault::NoReplica(name_of(alloc, view, file)?))),
        None => Ok(None),
    }
}

fn size_fault(
    alloc: Global,
    view: &View<'_>,
    tables: &Tables,
) -> Result<Option<RefineFault>, Memory>
    requires draft { IsDraft (draft_of view.now) }
    requires tables { AreTables (draft_of view.now) tables.now }
    ensures { IfOk result (λ o. o ≡ option_map (λ f. NoSize (draft_file_name (draft_of view.now) f))
        (least (count_files (draft_of view.now)) (lacks_size (draft_of view.now)))) }
{
    match without_size(view, tables) {
        Some(file) => Ok(Some(RefineFault::NoSize(name_of(alloc, view, file)?))),
        None => Ok(None),
    }
}

fn too_many(count: u64, limit: u64) -> Option<RefineFault>
    ensures { result ≡ too_many count limit }
{
    if limit < count {
        Some(RefineFault::TooMany(count, limit))
    } else {
        None
    }
}

/// The first fault, in their order; there would be `count` tasks.
#[tactic(auto, unfolding(crate::specs::code::Tasks::first_fault))]
pub fn first_fault(
    alloc: Global,
    view: &View<'_>,
    tables: &Tables,
    count: u64,
    limit: u64,
) -> Result<Option<RefineFault>, Memory>
    requires draft { IsDraft (draft_of view.now) }
    requires graph { IsGraphOf view.now.workflow.now view.now.graph.now }
    requires tables { AreTables (draft_of view.now) tables.now }
    requires count { count ≡ count_all (draft_of view.now) }
    ensures { IfOk result (λ o. o ≡ first_fault (draft_of view.now) limit) }
{
    if let Some(fault) = replica_fault(alloc, view, tables)? {
        return Ok(Some(fault));
    }
    if let Some(fault) = size_fault(alloc, view, tables)? {
        return Ok(Some(fault));
    }
    Ok(too_many(count, limit))
}
