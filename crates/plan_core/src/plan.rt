//! A plan: tables of sites, files, jobs and pairs, and the tasks over them.

ghost use Rattle.std.specs.Prelude.{◌≡◌, ◌++◌, IfErr, IfOk};

use values::{FileId, Items, JobId, PairId, Policy, SiteId, TaskId, Text};

/// An execution site; the bound is in bytes.
#[derive(Drop)]
pub struct PlanSite {
    pub name: Text,
    pub bound: u64,
}

/// A file; the declared size is in bytes, the checksum a SHA-256.
#[derive(Drop)]
pub struct PlanFile {
    pub lfn: Text,
    pub declared: Option<u64>,
    pub checksum: Option<[u8; 32]>,
    pub register: bool,
}

/// A job; a dropped one has no site.
pub struct PlanJob {
    pub id: Text,
    pub tool: Text,
    pub arguments: Items<Text>,
    pub inputs: Items<FileId>,
    pub outputs: Items<FileId>,
    pub site: Option<SiteId>,
}

impl Drop for PlanJob {
    fn drop(self) {
        let PlanJob {
            id,
            tool,
            arguments,
            inputs,
            outputs,
            site,
        } = self;
    }
}

/// A file at a site.
#[derive(Clone, Copy)]
pub struct Pair {
    pub site: SiteId,
    pub file: FileId,
}

/// Where a transferred file comes from.
#[derive(Drop)]
pub enum Source {
    Pfn(Text),
    Site(SiteId),
}

/// Where a transferred file goes.
#[derive(Clone, Copy)]
pub enum Target {
    Site(SiteId),
    Delivery,
}

/// What a task does.
#[derive(Drop)]
pub enum TaskKind {
    Transfer {
        file: FileId,
        from: Source,
        to: Target,
    },
    Run {
        site: SiteId,
        jobs: Items<JobId>,
    },
    Clean {
        pair: PairId,
    },
}

/// A task, with the pairs that it reads and writes and the tasks that it waits for.
pub struct Task {
    pub kind: TaskKind,
    pub reads: Items<PairId>,
    pub writes: Items<PairId>,
    pub parents: Items<TaskId>,
}

impl Drop for Task {
    fn drop(self) {
        let Task {
            kind,
            reads,
            writes,
            parents,
        } = self;
    }
}

/// A plan. A site, file, job, pair or task has the number of its place.
pub struct Plan {
    pub workflow: Text,
    pub sites: Items<PlanSite>,
    pub files: Items<PlanFile>,
    pub jobs: Items<PlanJob>,
    pub pairs: Items<Pair>,
    pub tasks: Items<Task>,
    pub policy: Policy,
}

impl Drop for Plan {
    fn drop(self) {
        let Plan {
            workflow,
            sites,
            files,
            jobs,
            pairs,
            tasks,
            policy,
        } = self;
    }
}

impl Plan {
    /// The plan with more tasks after its own; at want of memory as it was.
    pub fn with_tasks(self, more: Vec<Task>) -> Result<Plan, Plan>
        ensures ok { IfOk result (λ p. p ≡ record self { tasks = self.tasks ++ more.items }) }
        ensures err { IfErr result (λ p. p ≡ self) }
    {
        let Plan {
            workflow,
            sites,
            files,
            jobs,
            pairs,
            tasks,
            policy,
        } = self;
        let mut tasks = tasks.into_vec();
        let mut more = more;
        let added = tasks.append(&mut more).is_ok();
        let plan = Plan {
            workflow,
            sites,
            files,
            jobs,
            pairs,
            tasks: Items::new(tasks),
            policy,
        };
        if added { Ok(plan) } else { Err(plan) }
    }
}
