//! Copies of a plan and of its parts.

ghost use Rattle.std.specs.Prelude.{◌≡◌, IfOk};

use crate::plan::{Plan, PlanFile, PlanJob, PlanSite, Source, Task, TaskKind};
use std::alloc::Global;
use values::{Items, Memory, Policy, Text};

/// A copy of a list of numbers.
pub fn copied<T: Copy + Drop>(alloc: Global, items: &[T]) -> Result<Items<T>, Memory>
    ensures { IfOk result (λ copy. copy ≡ items.now) }
{
    Ok(Items::new(items.iter().copied().collect(alloc)?))
}

/// A copy of a list of texts.
pub fn texts_copied(alloc: Global, texts: &[Text]) -> Result<Items<Text>, Memory>
    ensures { IfOk result (λ copy. copy ≡ texts.now) }
{
    let mut copies = Vec::new(alloc);
    for text in texts {
        copies.push(text.copied(alloc)?)?;
    }
    Ok(Items::new(copies))
}

fn source_copied(alloc: Global, source: &Source) -> Result<Source, Memory>
    ensures { IfOk result (λ copy. copy ≡ source.now) }
{
    match source {
        Source::Pfn(pfn) => Ok(Source::Pfn(pfn.copied(alloc)?)),
        Source::Site(site) => Ok(Source::Site(*site)),
    }
}

/// A copy of a kind of task.
pub fn kind_copied(alloc: Global, kind: &TaskKind) -> Result<TaskKind, Memory>
    ensures { IfOk result (λ copy. copy ≡ kind.now) }
{
    match kind {
        TaskKind::Transfer { file, from, to } => {
            let from = source_copied(alloc, from)?;
            Ok(TaskKind::Transfer {
                file: *file,
                from,
                to: *to,
            })
        }
        TaskKind::Run { site, jobs } => {
            let jobs = copied(alloc, jobs.as_slice())?;
            Ok(TaskKind::Run { site: *site, jobs })
        }
        TaskKind::Clean { pair } => Ok(TaskKind::Clean { pair: *pair }),
    }
}

/// A copy of a list of sites.
fn sites_copied(alloc: Global, sites: &[PlanSite]) -> Result<Items<PlanSite>, Memory>
    ensures { IfOk result (λ copy. copy ≡ sites.now) }
{
    let mut copies = Vec::new(alloc);
    for site in sites {
        let name = site.name.copied(alloc)?;
        copies.push(PlanSite {
            name,
            bound: site.bound,
        })?;
    }
    Ok(Items::new(copies))
}

fn file_copied(alloc: Global, file: &PlanFile) -> Result<PlanFile, Memory>
    ensures { IfOk result (λ copy. copy ≡ file.now) }
{
    let lfn = file.lfn.copied(alloc)?;
    Ok(PlanFile {
        lfn,
        declared: file.declared,
        checksum: file.checksum,
        register: file.register,
    })
}

fn files_copied(alloc: Global, files: &[PlanFile]) -> Result<Items<PlanFile>, Memory>
    ensures { IfOk result (λ copy. copy ≡ files.now) }
{
    let mut copies = Vec::new(alloc);
    for file in files {
        copies.push(file_copied(alloc, file)?)?;
    }
    Ok(Items::new(copies))
}

fn job_copied(alloc: Global, job: &PlanJob) -> Result<PlanJob, Memory>
    ensures { IfOk result (λ copy. copy ≡ job.now) }
{
    let id = job.id.copied(alloc)?;
    let tool = job.tool.copied(alloc)?;
    let arguments = texts_copied(alloc, job.arguments.as_slice())?;
    let inputs = copied(alloc, job.inputs.as_slice())?;
    let outputs = copied(alloc, job.outputs.as_slice())?;
    Ok(PlanJob {
        id,
        tool,
        arguments,
        inputs,
        outputs,
        site: job.site,
    })
}

fn jobs_copied(alloc: Global, jobs: &[PlanJob]) -> Result<Items<PlanJob>, Memory>
    ensures { IfOk result (λ copy. copy ≡ jobs.now) }
{
    let mut copies = Vec::new(alloc);
    for job in jobs {
        copies.push(job_copied(alloc, job)?)?;
    }
    Ok(Items::new(copies))
}

fn task_copied(alloc: Global, task: &Task) -> Result<Task, Memory>
    ensures { IfOk result (λ copy. copy ≡ task.now) }
{
    let kind = kind_copied(alloc, &task.kind)?;
    let reads = copied(alloc, task.reads.as_slice())?;
    let writes = copied(alloc, task.writes.as_slice())?;
    let parents = copied(alloc, task.parents.as_slice())?;
    Ok(Task {
        kind,
        reads,
        writes,
        parents,
    })
}

fn tasks_copied(alloc: Global, tasks: &[Task]) -> Result<Items<Task>, Memory>
    ensures { IfOk result (λ copy. copy ≡ tasks.now) }
{
    let mut copies = Vec::new(alloc);
    for task in tasks {
        copies.push(task_copied(alloc, task)?)?;
    }
    Ok(Items::new(copies))
}

fn policy_copied(policy: &Policy) -> Policy
    ensures { result ≡ policy.now }
{
    Policy {
        retries: policy.retries,
        fresh: policy.fresh,
        output: policy.output,
    }
}

impl Plan {
    /// An equal plan.
    pub fn copy(&self, alloc: Global) -> Result<Plan, Memory>
        ensures { IfOk result (λ copy. copy ≡ self.now) }
    {
        let workflow = self.workflow.copied(alloc)?;
        let sites = sites_copied(alloc, self.sites.as_slice())?;
        let files = files_copied(alloc, self.files.as_slice())?;
        let jobs = jobs_copied(alloc, self.jobs.as_slice())?;
        let pairs = copied(alloc, self.pairs.as_slice())?;
        let tasks = tasks_copied(alloc, self.tasks.as_slice())?;
        Ok(Plan {
            workflow,
            sites,
            files,
            jobs,
            pairs,
            tasks,
            policy: policy_copied(&self.policy),
        })
    }
}
