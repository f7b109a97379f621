//! What jobs read and make, and the site of a part.

ghost use Rattle.std.specs.Prelude.{◌≡◌, [], map, slice_index_or};
ghost use Rattle.workflow_core.specs.declared.workflow.Output.{Output};
ghost use Rattle.dependency_graph.specs.Edges.{read_by, written_by};
ghost use Rattle.plan_core.specs.Words.{file_numbers, job_numbers};
ghost use Rattle.transfer_refiner.specs.Draft.{site_of};
ghost use Rattle.transfer_refiner.specs.Tasks.{part_of};
ghost use Rattle.transfer_refiner.specs.code.View.{draft_of};

use crate::view::View;
use values::{FileId, JobId, SiteId};
use workflow_core::{Output, Workflow};

/// The files that a job reads.
#[tactic(auto, using(crate::proofs::LookupLemmas::reads_of, crate::proofs::LookupLemmas::reads_none))]
pub fn inputs(workflow: &Workflow, job: JobId) -> &[FileId]
    ensures { file_numbers result.now ≡ read_by workflow.now job.0 }
{
    match workflow.jobs.as_slice().get(job.0 as usize) {
        Some(found) => found.inputs.as_slice(),
        None => &[],
    }
}

/// What a job makes.
#[tactic(auto, using(crate::proofs::LookupLemmas::writes_of, crate::proofs::LookupLemmas::writes_none))]
pub fn outputs(workflow: &Workflow, job: JobId) -> &[Output]
    ensures { map (λ (o : Output). o.file.0) result.now ≡ written_by workflow.now job.0 }
{
    match workflow.jobs.as_slice().get(job.0 as usize) {
        Some(found) => found.outputs.as_slice(),
        None => &[],
    }
}

/// The jobs of a part.
#[tactic(auto, using(crate::proofs::LookupLemmas::list_at, crate::proofs::LookupLemmas::list_none))]
pub fn part<'a>(view: &View<'a>, part: u32) -> &'a [JobId]
    ensures { result.now ≡ slice_index_or view.now.parts.now part [] }
{
    match view.parts.get(part as usize) {
        Some(found) => found.as_slice(),
        None => &[],
    }
}

/// The site of a part: that of its first job.
pub fn site_of(view: &View<'_>, jobs: &[JobId]) -> SiteId
    ensures { result.0 ≡ site_of (draft_of view.now) jobs.now }
{
    match jobs {
        [] => SiteId(0),
        [job, ..] => match view.sites.get(job.0 as usize) {
            Some(Some(site)) => *site,
            Some(None) => SiteId(0),
            None => SiteId(0),
        },
    }
}
