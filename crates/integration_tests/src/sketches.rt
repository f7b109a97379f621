//! Plans by their names and numbers, for the tests to build.

use plan_core::{Pair, Plan, PlanFile, PlanJob, PlanSite, Source, Target, Task, TaskKind};
use std::alloc::Global;
use values::{FileId, Items, JobId, Memory, PairId, Policy, SiteId, TaskId, Text};

/// What a task does, by the numbers of sites, files, jobs and pairs.
#[derive(Clone, Copy)]
pub enum Does<'a> {
    /// Jobs at a site.
    Run(u32, &'a [u32]),
    /// A file from its pfn to a site.
    Fetch(u32, u32),
    /// A file from a site to its delivery.
    Deliver(u32, u32),
    /// A pair.
    Clean(u32),
}

/// What a task does, and the numbers of what it reads, writes and comes after.
pub type TaskRow<'a> = (Does<'a>, &'a [u32], &'a [u32], &'a [u32]);

/// A plan by its names and numbers.
#[derive(Clone, Copy)]
pub struct Sketch<'a> {
    pub workflow: &'a str,
    pub sites: &'a [(&'a str, u64)],
    pub files: &'a [(&'a str, Option<u64>)],
    /// A job's site, inputs and outputs.
    pub jobs: &'a [(&'a str, Option<u32>, &'a [u32], &'a [u32])],
    pub pairs: &'a [(u32, u32)],
    pub tasks: &'a [TaskRow<'a>],
}

fn sites(alloc: Global, rows: &[(&str, u64)]) -> Result<Items<PlanSite>, Memory> {
    let mut made = Vec::new(alloc);
    for (name, bound) in rows {
        made.push(PlanSite {
            name: Text::copy_of(alloc, name)?,
            bound: *bound,
        })?;
    }
    Ok(Items::new(made))
}

fn files(alloc: Global, rows: &[(&str, Option<u64>)]) -> Result<Items<PlanFile>, Memory> {
    let mut made = Vec::new(alloc);
    for (name, size) in rows {
        made.push(PlanFile {
            lfn: Text::copy_of(alloc, name)?,
            declared: *size,
            checksum: None,
            register: false,
        })?;
    }
    Ok(Items::new(made))
}

fn file_ids(alloc: Global, numbers: &[u32]) -> Result<Items<FileId>, Memory> {
    let mut made = Vec::new(alloc);
    for number in numbers {
        made.push(FileId(*number))?;
    }
    Ok(Items::new(made))
}

fn pair_ids(alloc: Global, numbers: &[u32]) -> Result<Items<PairId>, Memory> {
    let mut made = Vec::new(alloc);
    for number in numbers {
        made.push(PairId(*number))?;
    }
    Ok(Items::new(made))
}

pub fn task_ids(alloc: Global, numbers: &[u32]) -> Result<Vec<TaskId>, Memory> {
    let mut made = Vec::new(alloc);
    for number in numbers {
        made.push(TaskId(*number))?;
    }
    Ok(made)
}

fn job_ids(alloc: Global, numbers: &[u32]) -> Result<Items<JobId>, Memory> {
    let mut made = Vec::new(alloc);
    for number in numbers {
        made.push(JobId(*number))?;
    }
    Ok(Items::new(made))
}

fn site_id(number: Option<u32>) -> Option<SiteId> {
    match number {
        Some(site) => Some(SiteId(site)),
        None => None,
    }
}

fn jobs(
    alloc: Global,
    rows: &[(&str, Option<u32>, &[u32], &[u32])],
) -> Result<Items<PlanJob>, Memory> {
    let mut made = Vec::new(alloc);
    for (id, site, inputs, outputs) in rows {
        made.push(PlanJob {
            id: Text::copy_of(alloc, id)?,
            tool: Text::copy_of(alloc, "join")?,
            arguments: Items::new(Vec::new(alloc)),
            inputs: file_ids(alloc, inputs)?,
            outputs: file_ids(alloc, outputs)?,
            site: site_id(*site),
        })?;
    }
    Ok(Items::new(made))
}

fn pairs(alloc: Global, rows: &[(u32, u32)]) -> Result<Items<Pair>, Memory> {
    let mut made = Vec::new(alloc);
    for (site, file) in rows {
        made.push(Pair {
            site: SiteId(*site),
            file: FileId(*file),
        })?;
    }
    Ok(Items::new(made))
}

fn kind(alloc: Global, does: &Does<'_>) -> Result<TaskKind, Memory> {
    match does {
        Does::Run(site, numbers) => Ok(TaskKind::Run {
            site: SiteId(*site),
            jobs: job_ids(alloc, numbers)?,
        }),
        Does::Fetch(file, site) => Ok(TaskKind::Transfer {
            file: FileId(*file),
            from: Source::Pfn(Text::copy_of(alloc, "file:///data/f.a")?),
            to: Target::Site(SiteId(*site)),
        }),
        Does::Deliver(file, home) => Ok(TaskKind::Transfer {
            file: FileId(*file),
            from: Source::Site(SiteId(*home)),
            to: Target::Delivery,
        }),
        Does::Clean(pair) => Ok(TaskKind::Clean {
            pair: PairId(*pair),
        }),
    }
}

fn tasks(alloc: Global, rows: &[TaskRow<'_>]) -> Result<Items<Task>, Memory> {
    let mut made = Vec::new(alloc);
    for (does, reads, writes, parents) in rows {
        made.push(Task {
            kind: kind(alloc, does)?,
            reads: pair_ids(alloc, reads)?,
            writes: pair_ids(alloc, writes)?,
            parents: Items::new(task_ids(alloc, parents)?),
        })?;
    }
    Ok(Items::new(made))
}

/// The plan of a sketch.
pub fn plan_of(alloc: Global, sketch: &Sketch<'_>, policy: Policy) -> Result<Plan, Memory> {
    Ok(Plan {
        workflow: Text::copy_of(alloc, sketch.workflow)?,
        sites: sites(alloc, sketch.sites)?,
        files: files(alloc, sketch.files)?,
        jobs: jobs(alloc, sketch.jobs)?,
        pairs: pairs(alloc, sketch.pairs)?,
        tasks: tasks(alloc, sketch.tasks)?,
        policy,
    })
}

/// The diamond with its Cleans.
pub const DIAMOND_CLEANED: Sketch<'static> = Sketch {
    workflow: "diamond",
    sites: &[("condorpool", 30)],
    files: &[
        ("f.a", Some(10)),
        ("f.b1", Some(10)),
        ("f.b2", Some(10)),
        ("f.c1", Some(10)),
        ("f.c2", Some(10)),
        ("f.d", Some(10)),
    ],
    jobs: &[
        ("ID0000001", Some(0), &[0], &[1, 2]),
        ("ID0000002", Some(0), &[1], &[3]),
        ("ID0000003", Some(0), &[2], &[4]),
        ("ID0000004", Some(0), &[3, 4], &[5]),
    ],
    pairs: &[(0, 0), (0, 1), (0, 2), (0, 3), (0, 4), (0, 5)],
    tasks: &[
        (Does::Run(0, &[0]), &[0], &[1, 2], &[4]),
        (Does::Run(0, &[1]), &[1], &[3], &[0]),
        (Does::Run(0, &[2]), &[2], &[4], &[0]),
        (Does::Run(0, &[3]), &[3, 4], &[5], &[1, 2]),
        (Does::Fetch(0, 0), &[], &[0], &[]),
        (Does::Deliver(5, 0), &[5], &[], &[3]),
        (Does::Clean(0), &[], &[], &[0, 4]),
        (Does::Clean(1), &[], &[], &[0, 1]),
        (Does::Clean(2), &[], &[], &[0, 2]),
        (Does::Clean(3), &[], &[], &[1, 3]),
        (Does::Clean(4), &[], &[], &[2, 3]),
        (Does::Clean(5), &[], &[], &[3, 5]),
    ],
};
