//! The pairs of jobs that dependencies state.

ghost use Rattle.std.specs.Prelude.{◌≡◌, ◌≤◌, ◌∷◌, ◌++◌, length, option_map, OnOk, IfOk};
ghost use Rattle.peg_json.specs.code.ReadFault.{GivesRead};
ghost use Rattle.peg_json.specs.declared.read_fault.ReadFault.TheVariants.{UnknownJob};
ghost use Rattle.peg_json.specs.Elements.{refused, first_unknown};
ghost use Rattle.workflow_reader.specs.Linking.{ids_in, job_with_id, pairs_from, dependency_pairs};

use crate::document::Dependency;
use peg_json::ReadFault;
use std::alloc::Global;
use values::{Items, JobId, Memory, Text};
use workflow_core::Names;

/// The first id of a dependency that no job has.
fn unknown_in<'a>(ids: &Names, dependency: &'a Dependency) -> Option<&'a Text>
    ensures { option_map (λ t. t.now) result
        ≡ first_unknown ids.now (dependency.now.id ∷ dependency.now.children) }
{
    if !ids.contains(&dependency.id) {
        return Some(&dependency.id);
    }
    for child in dependency.children.as_slice() {
        if !ids.contains(child) {
            return Some(child);
        }
    }
    None
}

/// Refuses an id that no job has.
pub fn all_known(alloc: Global, ids: &Names, dependencies: &[Dependency]) -> Result<(), ReadFault>
    ensures { GivesRead (λ u. u) result (refused UnknownJob
        (first_unknown ids.now (ids_in dependencies.now))) }
{
    for dependency in dependencies {
        if let Some(id) = unknown_in(ids, dependency) {
            return Err(ReadFault::UnknownJob(id.copied(alloc)?));
        }
    }
    Ok(())
}

fn job_of(ids: &Names, id: &Text) -> JobId
    requires { length ids.now ≤ 10000 }
    ensures { result ≡ job_with_id ids.now id.now }
{
    JobId(ids.number(id) as u32)
}

fn add_pairs(
    ids: &Names,
    dependency: &Dependency,
    pairs: &mut Vec<(JobId, JobId)>,
) -> Result<(), Memory>
    requires { length ids.now ≤ 10000 }
    ensures { OnOk result (pairs.new.items ≡ pairs.old.items ++ pairs_from ids.now dependency.now) }
{
    let first = job_of(ids, &dependency.id);
    for child in dependency.children.as_slice() {
        pairs.push((first, job_of(ids, child)))?;
    }
    Ok(())
}

/// A pair for each child of each dependency.
pub fn pairs_of(
    alloc: Global,
    ids: &Names,
    dependencies: &[Dependency],
) -> Result<Items<(JobId, JobId)>, Memory>
    requires { length ids.now ≤ 10000 }
    ensures { IfOk result (λ pairs. pairs ≡ dependency_pairs ids.now dependencies.now) }
{
    let mut pairs = Vec::new(alloc);
    for dependency in dependencies {
        add_pairs(ids, dependency, &mut pairs)?;
    }
    Ok(Items::new(pairs))
}
