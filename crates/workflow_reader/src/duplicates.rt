//! Jobs that have one id, and a job's uses of one file.

ghost use Rattle.std.specs.Prelude.{◌≡◌, ◌++◌, [], not, option_map, IfOk, OnOk};
ghost use Rattle.std.specs.List.{list_any};
ghost use Rattle.std.specs.Str.{bytes_eq};
ghost use Rattle.peg_json.specs.code.ReadFault.{GivesRead};
ghost use Rattle.peg_json.specs.declared.read_fault.ReadFault.TheVariants.{DuplicateJob};
ghost use Rattle.workflow_core.specs.code.Names.{with_name};
ghost use Rattle.peg_json.specs.Elements.{first_repeat, refused};
ghost use Rattle.workflow_reader.specs.code.Known.{is_named, inputs_with, outputs_with, repeat_after};
ghost use Rattle.workflow_reader.specs.Linking.{ids_of, same_use, used_once, all_used_once};

use crate::document::{Direction, JobEntry, Use};
use peg_json::ReadFault;
use std::alloc::Global;
use values::{Memory, Text};
use workflow_core::Names;

/// So many uses of a job are compared with each other; more are looked up by name.
const FEW: usize = 16;

/// Adds the jobs' ids, and refuses one that is there before.
fn add_ids(alloc: Global, ids: &mut Names, jobs: &[JobEntry]) -> Result<(), ReadFault>
    ensures answer { GivesRead (λ u. u) result
        (refused DuplicateJob (first_repeat bytes_eq ids.old (ids_of jobs.now))) }
    ensures ids { OnOk result (ids.new ≡ ids.old ++ ids_of jobs.now) }
{
    for job in jobs {
        if ids.contains(&job.id) {
            return Err(ReadFault::DuplicateJob(job.id.copied(alloc)?));
        }
        ids.add(alloc, &job.id)?;
    }
    Ok(())
}

/// The ids of jobs, each once.
pub fn ids_of(alloc: Global, jobs: &[JobEntry]) -> Result<Names, ReadFault>
    ensures answer { GivesRead (λ _. tt) result
        (refused DuplicateJob (first_repeat bytes_eq [] (ids_of jobs.now))) }
    ensures ids { IfOk result (λ ids. ids ≡ ids_of jobs.now) }
{
    let mut ids = Names::new(alloc);
    match add_ids(alloc, &mut ids, jobs) {
        Ok(()) => Ok(ids),
        Err(fault) => {
            drop(ids);
            Err(fault)
        }
    }
}

/// Adds a name, and says whether it is new.
fn insert(alloc: Global, names: &mut Names, name: &Text) -> Result<bool, Memory>
    ensures new { IfOk result (λ b. b ≡ not (list_any (bytes_eq name.now) names.old)) }
    ensures added { OnOk result (names.new ≡ with_name names.old name.now) }
{
    let is_new = !names.contains(name);
    names.add(alloc, name)?;
    Ok(is_new)
}

/// Adds a use's file to the inputs or to the outputs, and says whether it is new there.
fn insert_use(
    alloc: Global,
    inputs: &mut Names,
    outputs: &mut Names,
    used: &Use,
) -> Result<bool, Memory>
    ensures new { IfOk result (λ b. b ≡ not (is_named inputs.old outputs.old used.now)) }
    ensures inputs { OnOk result (inputs.new ≡ inputs_with inputs.old used.now) }
    ensures outputs { OnOk result (outputs.new ≡ outputs_with outputs.old used.now) }
{
    match used.direction {
        Direction::Input => insert(alloc, inputs, &used.lfn),
        Direction::Output => insert(alloc, outputs, &used.lfn),
    }
}

/// Adds the files of uses, up to the first one that is there before.
fn repeated<'a>(
    alloc: Global,
    inputs: &mut Names,
    outputs: &mut Names,
    uses: &'a [Use],
) -> Result<Option<&'a Use>, Memory>
    ensures { IfOk result (λ found. option_map (λ u. u.now) found
        ≡ repeat_after inputs.old outputs.old uses.now) }
{
    for used in uses {
        let is_new = insert_use(alloc, inputs, outputs, used)?;
        if !is_new {
            return Ok(Some(used));
        }
    }
    Ok(None)
}

/// The first of many uses that is there before, by the names of those before it.
#[tactic(auto, using(crate::proofs::DuplicatesLemmas::uses_apart))]
fn repeated_of_many(alloc: Global, uses: &[Use]) -> Result<Option<&Use>, Memory>
    ensures { IfOk result (λ found. option_map (λ u. u.now) found ≡ first_repeat same_use [] uses.now) }
{
    let mut inputs = Names::new(alloc);
    let mut outputs = Names::new(alloc);
    let found = repeated(alloc, &mut inputs, &mut outputs, uses);
    drop(inputs);
    drop(outputs);
    found
}

/// The same file, used the same way.
fn is_same(used: &Use, other: &Use) -> bool
    ensures { result ≡ same_use used.now other.now }
{
    let same_way = match used.direction {
        Direction::Input => matches!(other.direction, Direction::Input),
        Direction::Output => matches!(other.direction, Direction::Output),
    };
    same_way && used.lfn.as_str() == other.lfn.as_str()
}

fn is_among(used: &Use, others: &[Use]) -> bool
    ensures { result ≡ list_any (same_use used.now) others.now }
{
    for other in others {
        if is_same(used, other) {
            return true;
        }
    }
    false
}

/// The first of few uses that is there before, each compared with those before it.
fn repeated_of_few(uses: &[Use]) -> Option<&Use>
    ensures { option_map (λ u. u.now) result ≡ first_repeat same_use [] uses.now }
{
    let mut index = 0;
    for used in uses {
        if is_among(used, &uses[..index]) {
            return Some(used);
        }
        index += 1;
    }
    None
}

/// The first use of a job that is there before.
fn repeated_use(alloc: Global, job: &JobEntry) -> Result<Option<&Use>, Memory>
    ensures { IfOk result (λ found. option_map (λ u. u.now) found ≡ first_repeat same_use [] job.now.uses) }
{
    let uses = job.uses.as_slice();
    if uses.len() <= FEW {
        Ok(repeated_of_few(uses))
    } else {
        repeated_of_many(alloc, uses)
    }
}

fn used_once(alloc: Global, job: &JobEntry) -> Result<(), ReadFault>
    ensures { GivesRead (λ u. u) result (used_once job.now) }
{
    let Some(used) = repeated_use(alloc, job)? else {
        return Ok(());
    };
    let id = job.id.copied(alloc)?;
    match used.lfn.copied(alloc) {
        Ok(lfn) => Err(ReadFault::DuplicateUse(id, lfn)),
        Err(Memory) => {
            drop(id);
            Err(ReadFault::from(Memory))
        }
    }
}

/// Refuses a use that is there before in its job.
pub fn all_used_once(alloc: Global, jobs: &[JobEntry]) -> Result<(), ReadFault>
    ensures { GivesRead (λ u. u) result (all_used_once jobs.now) }
{
    for job in jobs {
        used_once(alloc, job)?;
    }
    Ok(())
}
