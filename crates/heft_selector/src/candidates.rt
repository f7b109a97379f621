//! The sites where each kept job can run.

ghost use Rattle.std.specs.Prelude.{◌≡◌, ◌<◌, ◌≤◌, ◌++◌, [], ◌∷◌, length, Ok, OnOk};
ghost use Rattle.plan_request.specs.Request.{execute_checked};
ghost use Rattle.heft_selector.specs.Candidates.{offering};
ghost use Rattle.heft_selector.specs.code.Candidates.{FindsAll, FindsOne};

use plan_request::Execution;
use site_selector::{Offers, candidates_of};
use std::alloc::Global;
use transformation_catalog::TransformationCatalog;
use values::{Memory, SelectFault};
use workflow_core::Job;

fn push(lists: &mut Vec<Vec<u32>>, list: Vec<u32>) -> Result<(), Memory>
    ensures { OnOk result (lists.new.items ≡ lists.old.items ++ list ∷ []) }
{
    lists.push(list)?;
    Ok(())
}

/// The candidates of a kept job, and none of a dropped one.
fn candidates_if(
    alloc: Global,
    offers: &Offers<'_>,
    is_kept: bool,
    number: u32,
    job: &Job,
) -> Result<Vec<u32>, SelectFault>
    requires few { length offers.now.execute < 65 }
    ensures { FindsOne offers.now is_kept number job.now result }
{
    if is_kept {
        return candidates_of(alloc, offers, number, job);
    }
    Ok(Vec::new(alloc))
}

/// For each kept job the sites where it can run, in order; or the first kept job, by number, that
/// has none.
pub fn all_candidates(
    alloc: Global,
    jobs: &[Job],
    kept: &[bool],
    execute: &[Execution],
    transformations: &TransformationCatalog,
) -> Result<Vec<Vec<u32>>, SelectFault>
    requires few { length jobs.now ≤ 10000 }
    requires kept { length kept.now ≡ length jobs.now }
    requires sites { execute_checked execute.now ≡ Ok tt }
    ensures { FindsAll (offering jobs.now kept.now execute.now transformations.now) result }
{
    let offers = Offers::new(alloc, execute, transformations)?;
    let mut lists = Vec::new(alloc);
    for number in 0..jobs.len() {
        let job = &jobs[number];
        match candidates_if(alloc, &offers, kept[number], number as u32, job) {
            Ok(found) => push(&mut lists, found)?,
            Err(fault) => return Err(fault),
        }
    }
    Ok(lists)
}
