//! The sites of all kept jobs.

ghost use Rattle.std.specs.Prelude.{◌≡◌, length, replicate, None, Ok, IfOk};
ghost use Rattle.workflow_core.specs.code.WellFormed.{IsWellFormed};
ghost use Rattle.plan_request.specs.Request.{execute_checked};
ghost use Rattle.site_selector.specs.Selecting.{selection};
ghost use Rattle.site_selector.specs.code.Selecting.{Selects};

use crate::candidates::site_of;
use crate::offers::Offers;
use dependency_graph::ranked;
use plan_request::PlanRequest;
use std::alloc::Global;
use transformation_catalog::TransformationCatalog;
use values::{Memory, SelectFault, SiteId};
use workflow_core::Workflow;

fn no_sites(alloc: Global, count: usize) -> Result<Vec<Option<SiteId>>, Memory>
    ensures { IfOk result (λ sites. sites.items ≡ replicate count None) }
{
    let sites = vec![in alloc; None; count]?;
    Ok(sites)
}

/// A site for each kept job, in turns that go on over all levels. There is one value of `kept` and of
/// `levels` for each job.
pub fn select(
    alloc: Global,
    workflow: &Workflow,
    kept: &[bool],
    levels: &[u32],
    request: &PlanRequest,
    transformations: &TransformationCatalog,
) -> Result<Vec<Option<SiteId>>, SelectFault>
    requires workflow { IsWellFormed workflow.now }
    requires kept { length kept.now ≡ length workflow.now.jobs }
    requires levels { length levels.now ≡ length workflow.now.jobs }
    requires sites { execute_checked request.now.execute ≡ Ok tt }
    ensures { Selects (selection workflow.now kept.now levels.now request.now transformations.now) result }
{
    let jobs = workflow.jobs.as_slice();
    let order = ranked(alloc, kept, levels)?;
    let offers = Offers::new(alloc, request.execute.as_slice(), transformations)?;
    let mut sites = no_sites(alloc, jobs.len())?;
    for (turn, number) in order.iter().enumerate() {
        let job = &jobs[*number as usize];
        let site = site_of(alloc, &offers, turn, *number, job)?;
        sites[*number as usize] = Some(site);
    }
    Ok(sites)
}
