//! The tables of sites, jobs and files.

ghost use Rattle.std.specs.Prelude.{◌≡◌, ◌≤◌, ◌<◌, ℕ, true, map, length, IfOk};
ghost use Rattle.plan_core.specs.code.Numbers.{RisesFrom};
ghost use Rattle.plan_core.specs.Numbers.{below, has};
ghost use Rattle.workflow_core.specs.declared.workflow.Output.{Output};
ghost use Rattle.transfer_refiner.specs.code.Conditions.{IsDraft};
ghost use Rattle.transfer_refiner.specs.code.Tables.{AreTables};
ghost use Rattle.transfer_refiner.specs.Tasks.{count_files, plan_files, is_flagged, jobs_of, planned_file, planned_job, planned_site};
ghost use Rattle.transfer_refiner.specs.code.View.{draft_of};

use crate::marked::flagged_files;
use crate::tables::{Tables, declared_of, entry_of, name_of};
use crate::view::View;
use plan_core::{PlanFile, PlanJob, PlanSite, copied, is_among, texts_copied};
use plan_request::{Execution, Tools};
use std::alloc::Global;
use values::{FileId, Items, Memory, Policy, SiteId, Text};
use workflow_core::{Job, Output};

pub fn policy_copied(policy: &Policy) -> Policy
    ensures { result ≡ policy.now }
{
    Policy {
        retries: policy.retries,
        fresh: policy.fresh,
        output: policy.output,
    }
}

/// The execution sites.
pub fn sites_of(alloc: Global, execute: &[Execution]) -> Result<Items<PlanSite>, Memory>
    ensures { IfOk result (λ sites. sites ≡ map planned_site execute.now) }
{
    let mut sites = Vec::new(alloc);
    for execution in execute {
        let name = execution.site.copied(alloc)?;
        sites.push(PlanSite {
            name,
            bound: execution.bound,
        })?;
    }
    Ok(Items::new(sites))
}

fn made_files(alloc: Global, outputs: &[Output]) -> Result<Items<FileId>, Memory>
    ensures { IfOk result (λ files. files ≡ map (λ (o : Output). o.file) outputs.now) }
{
    let mut files = Vec::new(alloc);
    for output in outputs {
        files.push(output.file)?;
    }
    Ok(Items::new(files))
}

fn planned_job(
    alloc: Global,
    tools: &Tools<'_>,
    job: &Job,
    site: Option<SiteId>,
) -> Result<PlanJob, Memory>
    ensures { IfOk result (λ j. j ≡ planned_job tools.now job.now site) }
{
    let id = job.id.copied(alloc)?;
    let tool = tools.tool_of(&job.transformation.name).copied(alloc)?;
    let arguments = texts_copied(alloc, job.arguments.as_slice())?;
    let inputs = copied(alloc, job.inputs.as_slice())?;
    let outputs = made_files(alloc, job.outputs.as_slice())?;
    Ok(PlanJob {
        id,
        tool,
        arguments,
        inputs,
        outputs,
        site,
    })
}

#[tactic(auto, using(crate::proofs::CopyingLemmas::jobs_none, crate::proofs::CopyingLemmas::jobs_all))]
fn planned_jobs(
    alloc: Global,
    tools: &Tools<'_>,
    jobs: &[Job],
    sites: &[Option<SiteId>],
) -> Result<Vec<PlanJob>, Memory>
    requires { length sites.now ≡ length jobs.now }
    ensures { IfOk result (λ v. v.items ≡ jobs_of tools.now jobs.now sites.now) }
{
    let mut planned = Vec::new(alloc);
    for i in 0..jobs.len() {
        planned.push(planned_job(alloc, tools, &jobs[i], sites[i])?)?;
    }
    Ok(planned)
}

/// The jobs, kept or not.
pub fn jobs_of(alloc: Global, view: &View<'_>) -> Result<Items<PlanJob>, Memory>
    requires { IsDraft (draft_of view.now) }
    ensures { IfOk result (λ jobs. jobs
        ≡ jobs_of view.now.request.now.tools view.now.workflow.now.jobs view.now.sites.now) }
{
    let tools = Tools::new(alloc, view.request)?;
    let jobs = planned_jobs(alloc, &tools, view.workflow.jobs.as_slice(), view.sites);
    drop(tools);
    Ok(Items::new(jobs?))
}

fn checksum_of(view: &View<'_>, file: FileId) -> Option<[u8; 32]>
    ensures { result ≡ (planned_file (draft_of view.now) file.0).checksum }
{
    match entry_of(view, file) {
        Some(entry) => entry.checksum,
        None => None,
    }
}

fn planned_file(
    alloc: Global,
    view: &View<'_>,
    tables: &Tables,
    flagged: &[u32],
    file: FileId,
) -> Result<PlanFile, Memory>
    requires tables { AreTables (draft_of view.now) tables.now }
    requires rises { RisesFrom 0 flagged.now }
    requires same { has flagged.now file.0 ≡ is_flagged view.now.workflow.now file.0 }
    ensures { IfOk result (λ f. f ≡ planned_file (draft_of view.now) file.0) }
{
    let lfn = name_of(alloc, view, file)?;
    Ok(PlanFile {
        lfn,
        declared: declared_of(tables, file),
        checksum: checksum_of(view, file),
        register: is_among(flagged, file.0),
    })
}

/// The files; those with the flag that they are to be registered are given, in rising order.
#[tactic(auto, using(crate::proofs::GridLemmas::first_of_all, crate::proofs::GridLemmas::one_more))]
fn planned_files(
    alloc: Global,
    view: &View<'_>,
    tables: &Tables,
    flagged: &[u32],
) -> Result<Vec<PlanFile>, Memory>
    requires draft { IsDraft (draft_of view.now) }
    requires tables { AreTables (draft_of view.now) tables.now }
    requires rises { RisesFrom 0 flagged.now }
    requires same { (f : ℕ) → has flagged.now f ≡ is_flagged view.now.workflow.now f }
    ensures { IfOk result (λ files. files.items ≡ plan_files (draft_of view.now)) }
{
    let mut files = Vec::new(alloc);
    for file in 0..view.workflow.files.as_slice().len() {
        files.push(planned_file(alloc, view, tables, flagged, FileId(file as u32))?)?;
    }
    Ok(files)
}

/// The files.
pub fn files_of(alloc: Global, view: &View<'_>, tables: &Tables) -> Result<Items<PlanFile>, Memory>
    requires draft { IsDraft (draft_of view.now) }
    requires tables { AreTables (draft_of view.now) tables.now }
    ensures { IfOk result (λ files. files ≡ plan_files (draft_of view.now)) }
{
    let flagged = flagged_files(alloc, view.workflow)?;
    let files = planned_files(alloc, view, tables, &flagged);
    drop(flagged);
    Ok(Items::new(files?))
}
